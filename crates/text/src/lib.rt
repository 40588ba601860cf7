// Bytes taken apart at a separator, compared, read and written as hexadecimal numbers, and put into a lent buffer. Every public function
// is total: what does not parse is an answer; what does not fit is not written, and the place in the buffer stays.
#![tactic(auto)]

ghost use Rattle.std.specs.Prelude.{◌≡◌, ◌<◌, false, length, position, ◌==◌, true, MatchOption};
ghost use Rattle.text.specs.Split.{has, until, past, same};
ghost use Rattle.text.specs.Hex.{value_of, lean, digit_of, glyph, hex_of};
ghost use Rattle.text.specs.Put.{has_room, wrote, place_after};

// The place of the first b.
fn first(s: &[u8], b: u8) -> Option<usize>
    ensures { result ≡ position (λ x. x == b) s.now }
{
    s.iter().position(|x| *x == b)
}

// The place of the first b, or the length where there is none.
#[tactic(auto, using(crate::proofs::SplitLaws::find_position))]
pub fn find(s: &[u8], b: u8) -> usize
    ensures { result ≡ length (until b s.now) }
{
    first(s, b).unwrap_or(s.len())
}

// What stands before the first b, and what stands after it.
#[tactic(auto, using(crate::proofs::SplitLaws::cut_none, crate::proofs::SplitLaws::cut_some))]
pub fn cut(s: &[u8], b: u8) -> Option<(&[u8], &[u8])>
    ensures { MatchOption result (has b s.now ≡ false) (λ p. (has b s.now ≡ true) × (p.0.now ≡ until b s.now) × (p.1.now ≡ past b s.now)) }
{
    let n = first(s, b)?;
    Some((&s[..n], &s[n + 1..]))
}

// Whether b stands in s.
#[tactic(auto, using(crate::proofs::SplitLaws::has_any, crate::proofs::SplitLaws::has_place))]
pub fn has(s: &[u8], b: u8) -> bool
    ensures { result ≡ has b s.now }
{
    s.contains(&b)
}

// The part before the first b.
#[tactic(auto, using(crate::proofs::SplitLaws::until_length, crate::proofs::SplitLaws::found_before))]
pub fn until(s: &[u8], b: u8) -> &[u8]
    ensures { result.now ≡ until b s.now }
{
    &s[..find(s, b)]
}

// The part after the first b.
#[tactic(auto, using(crate::proofs::SplitLaws::until_length, crate::proofs::SplitLaws::past_part, crate::proofs::SplitLaws::past_part_end))]
pub fn past(s: &[u8], b: u8) -> &[u8]
    ensures { result.now ≡ past b s.now }
{
    let n = find(s, b);
    if n < s.len() { &s[n + 1..] } else { &s[n..] }
}

// Whether two slices hold the same bytes.
#[tactic(auto, using(crate::proofs::SplitLaws::same_pointwise, crate::proofs::SplitLaws::same_prefix, crate::proofs::SplitLaws::differ))]
pub fn same(a: &[u8], b: &[u8]) -> bool
    ensures { result ≡ same a.now b.now }
{
    a == b
}

// What a byte is worth as a hexadecimal digit.
#[tactic(auto, unfolding(crate::specs::Hex::digit_of, crate::specs::Hex::digit))]
pub fn digit(x: u8) -> Option<u32>
    ensures { result ≡ digit_of x }
{
    match x {
        b'0'..=b'9' => Some(x as u32 - 48),
        b'a'..=b'f' => Some(x as u32 - 87),
        _ => None,
    }
}

// Whether a value has a digit, and no `0` in front of others.
#[tactic(auto, unfolding(crate::specs::Hex::lean))]
fn lean(s: &[u8]) -> bool
    ensures { result ≡ lean s.now }
{
    match s {
        [] | [b'0', _, ..] => false,
        _ => true,
    }
}

// The number that a value spells.
#[tactic(auto, using(crate::proofs::HexLaws::value_long, crate::proofs::HexLaws::value_lean))]
pub fn read_value(s: &[u8]) -> Option<u32>
    ensures { result ≡ value_of s.now }
{
    if 8 < s.len() || !lean(s) {
        return None;
    }
    let mut v: u32 = 0;
    for x in s {
        v = v * 16 + digit(*x)?;
    }
    Some(v)
}

// The byte of a digit below 16.
#[tactic(auto, unfolding(crate::specs::Hex::glyph))]
fn glyph(d: u32) -> u8
    requires { d < 16 }
    ensures { result ≡ glyph d }
{
    if d < 10 { 48 + d as u8 } else { 87 + d as u8 }
}

// Whether `room` bytes are left in a buffer from place `at` on.
#[tactic(auto, unfolding(crate::specs::Put::has_room))]
pub fn has_room(out: &[u8], at: usize, room: usize) -> bool
    ensures { result ≡ has_room room out.now at }
{
    at <= out.len() && room <= out.len() - at
}

// Copies text over a part of a buffer that is as long. By `copy_from_slice` the archive of
// `list_report` would need the name `memmove` from outside.
fn copy(part: &mut [u8], text: &[u8])
    requires { length part.old ≡ length text.now }
    ensures { part.new ≡ text.now }
{
    for i in 0..text.len() {
        part[i] = text[i];
    }
}

// A lent buffer, and the place in it that is written next.
#[derive(Drop)]
pub struct Writer<'a> {
    pub out: &'a mut [u8],
    pub at: usize,
}

impl<'a> Writer<'a> {
    // A writer at the front of a buffer.
    pub fn new(out: &'a mut [u8]) -> Writer<'a>
        ensures same_buffer { result.out.ghost_name ≡ out.entry.ghost_name }
        ensures holds { result.out.now ≡ out.old }
        ensures place { result.at ≡ 0 }
    {
        Writer { out, at: 0 }
    }

    // Whether `room` bytes are left.
    pub fn has_room(&self, room: usize) -> bool
        ensures { result ≡ has_room room self.now.out.now self.now.at }
    {
        has_room(self.out, self.at, room)
    }

    // Puts text, and steps behind it. Where it does not fit, nothing is written and the place stays.
    #[tactic(auto, unfolding(crate::specs::Put::has_room, crate::specs::Put::wrote, crate::specs::Put::place_after), using(crate::proofs::PutLaws::put_over))]
    pub fn put(&mut self, text: &[u8])
        ensures same_buffer { self.new.out.ghost_name ≡ self.old.out.ghost_name }
        ensures place { self.new.at ≡ place_after (length text.now) self.old.out.now self.old.at text.now }
        ensures holds { self.new.out.now ≡ wrote (length text.now) self.old.out.now self.old.at text.now }
    {
        if self.has_room(text.len()) {
            let end = self.at + text.len();
            copy(&mut self.out[self.at..end], text);
            self.at = end;
        }
    }

    // Puts n in hexadecimal, where 8 bytes are left for it.
    #[tactic(auto, unfolding(crate::specs::Put::wrote, crate::specs::Put::place_after))]
    pub fn put_hex(&mut self, n: u32)
        ensures same_buffer { self.new.out.ghost_name ≡ self.old.out.ghost_name }
        ensures place { self.new.at ≡ place_after 8 self.old.out.now self.old.at (hex_of n) }
        ensures holds { self.new.out.now ≡ wrote 8 self.old.out.now self.old.at (hex_of n) }
    {
        if self.has_room(8) {
            // The last digit comes first, so the digits fill the buffer from its end.
            let mut buf = [0u8; 8];
            let mut i = 7;
            let mut v = n;
            while 15 < v {
                buf[i] = glyph(v % 16);
                v /= 16;
                i -= 1;
            }
            buf[i] = glyph(v);
            self.put(&buf[i..]);
        }
    }
}
