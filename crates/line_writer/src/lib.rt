// The lines of an image, put into a lent buffer; and a refusal.
#![tactic(auto)]

ghost use Rattle.std.specs.Prelude.{◌≡◌, ◌+◌, ◌*◌, ◌/◌, ◌≤◌, length, IfOk};
ghost use Rattle.text.specs.Put.{over, wrote, place_after};
ghost use Rattle.lines.specs.Form.{pair_text, pair_room};
ghost use Rattle.lines.specs.Words.{has_line, words_from};
ghost use Rattle.lines.specs.Ways.{length_fits, lines_text, lines_of, output};
ghost use Rattle.lines.specs.Settings.{image_limit};
ghost use Rattle.line_writer.specs.Call.{place_after_word, wrote_word, called, room_for};

use text::Writer;

// Why a call gives no lines.
#[derive(Clone, Copy)]
pub enum NoLines {
    ShortBuffer,
    WrongCounts,
}

// Whether an image may have n bytes where none may have more than `limit`.
#[tactic(auto, unfolding(lines::specs::Ways::length_fits))]
pub fn length_fits(limit: usize, n: usize) -> bool
    ensures { result ≡ length_fits limit n }
{
    limits::memory_fits(n) && n <= limit
}

// Puts two numbers as a line: an address and a word, or the line and the number of a refusal.
pub fn put_pair(w: &mut Writer, a: u32, b: u32)
    ensures same_buffer { w.new.out.ghost_name ≡ w.old.out.ghost_name }
    ensures place { w.new.at ≡ place_after pair_room w.old.out.now w.old.at (pair_text a b) }
    ensures holds { w.new.out.now ≡ wrote pair_room w.old.out.now w.old.at (pair_text a b) }
{
    if w.has_room(18) { // pair_room
        w.put_hex(a);
        w.put(b",");
        w.put_hex(b);
        w.put(b"\n");
    }
}

// Whether a word in front of the rest of an image has a line.
#[tactic(auto, unfolding(lines::specs::Words::has_line), using(crate::proofs::Laws::is_empty_lem))]
fn has_line(word: u32, rest: &[u8]) -> bool
    ensures { result ≡ has_line word rest.now }
{
    word != 0 || rest.is_empty()
}

// Puts the line of a word in front of the rest of an image, if it has one.
#[tactic(auto, unfolding(crate::specs::Call::place_after_word, crate::specs::Call::wrote_word))]
fn put_word(w: &mut Writer, at: u32, word: u32, rest: &[u8])
    ensures same_buffer { w.new.out.ghost_name ≡ w.old.out.ghost_name }
    ensures place { w.new.at ≡ place_after_word w.old.out.now w.old.at at word rest.now }
    ensures holds { w.new.out.now ≡ wrote_word w.old.out.now w.old.at at word rest.now }
{
    if has_line(word, rest) {
        put_pair(w, at, word);
    }
}

// Puts the lines of an image's words. There is room for them, and their addresses have 32 bits.
fn put_words(w: &mut Writer, image: &[u8])
    requires size { length image.now ≤ 16777216 }
    requires room { w.old.at + 18 * (length image.now / 4) ≤ length w.old.out.now }
    ensures same_buffer { w.new.out.ghost_name ≡ w.old.out.ghost_name }
    ensures place { w.new.at ≡ w.old.at + length (lines_text (words_from 0 image.now)) }
    ensures holds { w.new.out.now ≡ over w.old.out.now w.old.at (lines_text (words_from 0 image.now)) }
{
    let (words, _) = image.as_chunks::<4>();
    for (k, &[a, b, c, d]) in words.iter().enumerate() {
        let at = 4 * k;
        put_word(w, at as u32, memory::number(a, b, c, d), &image[at + 4..]);
    }
}

// Puts the lines of an image behind their names, or its refusal.
fn put_output(w: &mut Writer, limit: usize, image: &[u8])
    requires { w.old.at + room_for limit (length image.now) ≤ length w.old.out.now }
    ensures same_buffer { w.new.out.ghost_name ≡ w.old.out.ghost_name }
    ensures place { w.new.at ≡ w.old.at + length (output (lines_of limit image.now)) }
    ensures holds { w.new.out.now ≡ over w.old.out.now w.old.at (output (lines_of limit image.now)) }
    ensures fits { w.new.at ≤ length w.new.out.now }
{
    if length_fits(limit, image.len()) {
        w.put(b"at,word\n");
        put_words(w, image);
    } else {
        put_pair(w, 0, 19);
    }
}

// How many bytes a buffer needs for the lines of an image of n bytes.
#[tactic(auto, unfolding(crate::specs::Call::room_for), using(lines::proofs::Theorem::fits_parts))]
fn room_for(limit: usize, n: usize) -> usize
    ensures { result ≡ room_for limit n }
{
    if length_fits(limit, n) {
        18 + 18 * (n / 4)
    } else {
        18
    }
}

// Writes the lines of an image buffer of which n bytes were read, or the refusal, and tells how long that is. An image that has more than `limit`
// is refused. n stands beside the buffer because a count that the buffer does not have is a case of its own (`called`).
#[tactic(auto, unfolding(crate::specs::Call::called), using(text::proofs::PutLaws::room_left))]
pub fn write_lines(limit: usize, image: &[u8], n: usize, out: &mut [u8]) -> Result<usize, NoLines>
    ensures told { result ≡ (called limit image.now n out.old).told }
    ensures out { out.new ≡ (called limit image.now n out.old).out }
    ensures fits { IfOk result (λ size. size ≤ length out.new) }
{
    let image = image.get(..n).ok_or(NoLines::WrongCounts)?;
    let mut w = Writer::new(out);
    if !w.has_room(room_for(limit, n)) {
        return Err(NoLines::ShortBuffer);
    }
    put_output(&mut w, limit, image);
    Ok(w.at)
}

// The same for the programs: an image file that has more than 32,768 bytes is refused.
pub fn write_file_lines(image: &[u8], n: usize, out: &mut [u8]) -> Result<usize, NoLines>
    ensures told { result ≡ (called image_limit image.now n out.old).told }
    ensures out { out.new ≡ (called image_limit image.now n out.old).out }
    ensures fits { IfOk result (λ size. size ≤ length out.new) }
{
    write_lines(32768, image, n, out) // image_limit
}
