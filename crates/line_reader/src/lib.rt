// Lines read into an image: a reader, which bytes are fed to in parts of any length, with two lent buffers, the line being read and the
// image. A line is judged when it ends; once one is turned back, no byte changes anything.
#![tactic(auto)]

ghost use Rattle.std.specs.Prelude.{◌≡◌, ◌≤◌, length, replicate, IfOk, IsNone};
ghost use Rattle.text.specs.Put.{wrote, place_after};
ghost use Rattle.lines.specs.Form.{line_of, pair_text, pair_room};
ghost use Rattle.line_reader.specs.Reading.{SameBuffers, state_of, fresh, line_after, turned, accepted, so_far, with_byte, names_ended, word_ended, line_ended, step, feed, flaw_number, is_decided, complete, ending, ending_by, finished, finished_file};

use model::Size;
use text::Writer;

// Why lines are turned back, by the numbers of the rules: the names or the shape or spelling of a line; an address, a zero word or the length.
#[derive(Clone, Copy)]
pub enum Flaw {
    Form = 18,
    Order = 19,
}

// A reader: why a line was turned back, if one was; how many lines have ended, or which was turned back; how many bytes of the line being read
// its buffer holds; where the image ends so far; and whether the last word is zero.
#[derive(Clone, Copy)]
pub struct Reader {
    pub flaw: Option<Flaw>,
    pub lines: u32,
    pub count: usize,
    pub end: usize,
    pub zero: bool,
}

// Why the end of the input gives no output: the image's buffer is too short for a refusal, or, at the end of a program's input, its length is not
// the limit.
#[derive(Clone, Copy)]
pub enum NoOutput {
    ShortBuffer,
    WrongBuffer,
}

// The number of the line behind line n.
#[tactic(auto, unfolding(crate::specs::Reading::line_after))]
fn line_after(n: u32) -> u32
    ensures { result ≡ line_after n }
{
    n.saturating_add(1)
}

// What a line without its newline says.
#[tactic(auto, unfolding(lines::specs::Form::line_of), using(lines::proofs::LineLaws::one_field))]
fn read_line(line: &[u8]) -> Option<(u32, u32)>
    ensures { result ≡ line_of line.now }
{
    let (a, w) = text::cut(line, b',')?;
    Some((text::read_value(a)?, text::read_value(w)?))
}

// Puts a refusal in front of what the buffer holds, and tells how long it is.
fn refuse(image: &mut [u8], line: u32, flaw: Flaw) -> usize
    ensures { (result ≡ place_after pair_room image.old 0 (pair_text line (flaw_number flaw))) × (image.new ≡ wrote pair_room image.old 0 (pair_text line (flaw_number flaw))) }
{
    let mut w = Writer::new(image);
    line_writer::put_pair(&mut w, line, flaw as u32);
    w.at
}

impl Reader {
    // Begins to read: the image is cleared.
    pub fn begin(image: &mut [u8]) -> Reader
        ensures reader { result ≡ fresh }
        ensures image { image.new ≡ replicate (length image.old) 0 }
    {
        image.fill(0);
        Reader {
            flaw: None,
            lines: 0,
            count: 0,
            end: 0,
            zero: false,
        }
    }

    // Whether a line was turned back: then no byte changes anything.
    pub fn is_decided(self) -> bool
        ensures { result ≡ is_decided self }
    {
        self.flaw.is_some()
    }

    // Whether the last line has its newline, and the names line is there.
    #[tactic(auto, unfolding(crate::specs::Reading::complete))]
    fn is_complete(self) -> bool
        ensures { result ≡ complete self }
    {
        self.count == 0 && 0 < self.lines
    }

    // The line of the refusal and why, where the lines have no image: the length is tested last, and the limit is that of the image's
    // buffer.
    #[tactic(auto, unfolding(crate::specs::Reading::last_test), using(lines::proofs::Theorem::fits_parts))]
    fn refusal(self, image: &[u8]) -> Option<(u32, Flaw)>
        ensures ending { ending self image.now ≡ ending_by result self image.now }
        ensures fits { IsNone result → self.end ≤ length image.now }
    {
        if let Some(flaw) = self.flaw {
            return Some((self.lines, flaw));
        }
        if !self.is_complete() {
            return Some((line_after(self.lines), Flaw::Form));
        }
        if !line_writer::length_fits(image.len(), self.end) {
            return Some((0, Flaw::Order));
        }
        None
    }

    // The end of the input: so many bytes of the image's buffer are now the whole output.
    #[tactic(auto, unfolding(crate::specs::Reading::finished))]
    pub fn finish(self, image: &mut [u8]) -> Result<usize, NoOutput>
        ensures told { result ≡ (finished self image.old).told }
        ensures image { image.new ≡ (finished self image.old).image }
        ensures fits { IfOk result (λ size. size ≤ length image.new) }
    {
        if image.len() < 18 { // pair_room
            return Err(NoOutput::ShortBuffer);
        }
        match self.refusal(image) {
            Some((line, flaw)) => Ok(refuse(image, line, flaw)),
            None => Ok(self.end),
        }
    }

    // The same for the programs: the image's buffer has 32,768 bytes, and one of another length stays as it is.
    #[tactic(auto, unfolding(crate::specs::Reading::finished_file))]
    pub fn finish_file(self, image: &mut [u8]) -> Result<usize, NoOutput>
        ensures told { result ≡ (finished_file self image.old).told }
        ensures image { image.new ≡ (finished_file self image.old).image }
        ensures fits { IfOk result (λ size. size ≤ length image.new) }
    {
        if image.len() != 32768 { // image_limit
            return Err(NoOutput::WrongBuffer);
        }
        self.finish(image)
    }
}

// A reader with its two lent buffers: the line being read, and the image.
#[derive(Drop)]
pub struct Reading<'a> {
    pub reader: Reader,
    pub line: &'a mut [u8],
    pub image: &'a mut [u8],
}

impl Reading<'_> {
    // The line being read is turned back.
    fn turn(&mut self, flaw: Flaw)
        ensures same_buffers { SameBuffers self.new self.old }
        ensures state { state_of self.new ≡ turned flaw (state_of self.old) }
    {
        self.reader.flaw = Some(flaw);
        self.reader.lines = line_after(self.reader.lines);
    }

    // The line being read has ended and is accepted.
    fn accept(&mut self, end: usize, zero: bool)
        ensures same_buffers { SameBuffers self.new self.old }
        ensures state { state_of self.new ≡ accepted end zero (state_of self.old) }
    {
        self.reader = Reader {
            flaw: None,
            lines: line_after(self.reader.lines),
            count: 0,
            end,
            zero,
        };
    }

    // A byte more of the line being read. A line that its buffer cannot hold is none.
    #[tactic(auto, unfolding(crate::specs::Reading::with_byte))]
    fn push(&mut self, b: u8)
        ensures same_buffers { SameBuffers self.new self.old }
        ensures state { state_of self.new ≡ with_byte b (state_of self.old) }
    {
        let at = self.reader.count;
        if at < self.line.len() {
            self.line[at] = b;
            self.reader = Reader {
                flaw: None,
                count: at + 1,
                ..self.reader
            };
        } else {
            self.turn(Flaw::Form);
        }
    }

    // The line being read, as far as its buffer holds it.
    fn held(&self) -> &[u8]
        ensures { result.now ≡ so_far (state_of self.now) }
    {
        let n = self.reader.count.min(self.line.len());
        &self.line[..n]
    }

    // The names line has ended.
    #[tactic(auto, unfolding(crate::specs::Reading::names_ended))]
    fn end_names(&mut self)
        ensures same_buffers { SameBuffers self.new self.old }
        ensures state { state_of self.new ≡ names_ended (state_of self.old) }
    {
        if text::same(self.held(), b"at,word") {
            self.accept(0, false);
        } else {
            self.turn(Flaw::Form);
        }
    }

    // A line that says a word has ended: the word is stored, if it lies in the image.
    #[tactic(auto, unfolding(crate::specs::Reading::word_ended))]
    fn end_word(&mut self, a: u32, w: u32)
        ensures same_buffers { SameBuffers self.new self.old }
        ensures state { state_of self.new ≡ word_ended a w (state_of self.old) }
    {
        let at = a as usize;
        if at < self.reader.end || at % 4 != 0 {
            self.turn(Flaw::Order);
        } else {
            memory::store(self.image, at, Size::Four, w);
            self.accept(at + 4, w == 0);
        }
    }

    // The line being read has ended.
    #[tactic(auto, unfolding(crate::specs::Reading::line_ended))]
    fn end_line(&mut self)
        ensures same_buffers { SameBuffers self.new self.old }
        ensures state { state_of self.new ≡ line_ended (state_of self.old) }
    {
        if self.reader.lines == 0 {
            self.end_names();
        } else {
            match read_line(self.held()) {
                Some((a, w)) => self.end_word(a, w),
                None => self.turn(Flaw::Form),
            }
        }
    }

    // A byte. Behind a zero word none may follow.
    #[tactic(auto, unfolding(crate::specs::Reading::step, crate::specs::Reading::byte_taken))]
    fn step(&mut self, b: u8)
        ensures same_buffers { SameBuffers self.new self.old }
        ensures state { state_of self.new ≡ step b (state_of self.old) }
    {
        if self.reader.is_decided() {
            return;
        }
        if self.reader.zero {
            self.reader.flaw = Some(Flaw::Order);
        } else if b == b'\n' {
            self.end_line();
        } else {
            self.push(b);
        }
    }

    // The bytes of a part of the input.
    #[tactic(auto, using(crate::proofs::Laws::feed_turn, crate::proofs::Laws::feed_end))]
    pub fn feed(&mut self, part: &[u8])
        ensures same_buffers { SameBuffers self.new self.old }
        ensures state { state_of self.new ≡ feed part.now (state_of self.old) }
    {
        for &b in part {
            self.step(b);
        }
    }
}
