// The lines of a report, put into a lent buffer where there is room for the longest.
#![tactic(auto)]

ghost use Rattle.std.specs.Prelude.{◌≡◌, ◌≤◌, length};
ghost use Rattle.text.specs.Put.{wrote, place_after};
ghost use Rattle.model.specs.Numbers.{refused, shown};
ghost use Rattle.names.specs.Names.{name};
ghost use Rattle.report_line.specs.Text.{header, no_name, start_name, word, value, line_text, report_line, line_room};

use model::{Answer, Kind};
use text::Writer;

// Puts the names of a report.
pub fn put_header(w: &mut Writer)
    ensures same_buffer { w.new.out.ghost_name ≡ w.old.out.ghost_name }
    ensures place { w.new.at ≡ place_after (length header) w.old.out.now w.old.at header }
    ensures holds { w.new.out.now ≡ wrote (length header) w.old.out.now w.old.at header }
{
    w.put(b"line,op,answer,value\n");
}

// The word for an answer.
fn word(a: Answer) -> &'static [u8]
    ensures { result.now ≡ word (shown a) }
{
    match a {
        Answer::Done(_) => b"ok",
        Answer::Faulted(_) => b"fault",
        Answer::Refused(_) => b"refused",
    }
}

// The number that an answer shows.
pub fn value(a: Answer) -> u32
    ensures { result ≡ value (shown a) }
{
    match a {
        Answer::Done(v) => v,
        Answer::Faulted(f) => walk::fault_number(f),
        Answer::Refused(n) => checks::refusal_number(n),
    }
}

// Puts a line of these parts, where there is room for the longest.
#[tactic(auto, unfolding(text::specs::Put::wrote, text::specs::Put::place_after))]
fn put_line(w: &mut Writer, line: u32, op: &[u8], word: &[u8], value: u32)
    requires op { length op.now ≤ 7 }
    requires word { length word.now ≤ 7 }
    ensures same_buffer { w.new.out.ghost_name ≡ w.old.out.ghost_name }
    ensures put { (w.new.at ≡ place_after line_room w.old.out.now w.old.at (line_text line op.now word.now value)) × (w.new.out.now ≡ wrote line_room w.old.out.now w.old.at (line_text line op.now word.now value)) }
{
    if w.has_room(34) { // line_room
        w.put_hex(line);
        w.put(b",");
        w.put(op);
        w.put(b",");
        w.put(word);
        w.put(b",");
        w.put_hex(value);
        w.put(b"\n");
    }
}

// Puts the line of an operation.
#[tactic(auto, unfolding(crate::specs::Text::report_line))]
pub fn put_answer(w: &mut Writer, line: u32, k: Kind, a: Answer)
    ensures same_buffer { w.new.out.ghost_name ≡ w.old.out.ghost_name }
    ensures place { w.new.at ≡ place_after line_room w.old.out.now w.old.at (report_line line (name k) (shown a)) }
    ensures holds { w.new.out.now ≡ wrote line_room w.old.out.now w.old.at (report_line line (name k) (shown a)) }
{
    put_line(w, line, names::text_of(k), word(a), value(a));
}

// Puts the line of a list refusal.
#[tactic(auto, unfolding(crate::specs::Text::report_line))]
pub fn put_refusal(w: &mut Writer, line: u32, n: u32)
    ensures same_buffer { w.new.out.ghost_name ≡ w.old.out.ghost_name }
    ensures place { w.new.at ≡ place_after line_room w.old.out.now w.old.at (report_line line no_name (refused n)) }
    ensures holds { w.new.out.now ≡ wrote line_room w.old.out.now w.old.at (report_line line no_name (refused n)) }
{
    put_line(w, line, b"-", b"refused", n);
}

// Puts the line of a refused start.
#[tactic(auto, unfolding(crate::specs::Text::report_line))]
pub fn put_start(w: &mut Writer, n: u32)
    ensures same_buffer { w.new.out.ghost_name ≡ w.old.out.ghost_name }
    ensures place { w.new.at ≡ place_after line_room w.old.out.now w.old.at (report_line 0 start_name (refused n)) }
    ensures holds { w.new.out.now ≡ wrote line_room w.old.out.now w.old.at (report_line 0 start_name (refused n)) }
{
    put_line(w, 0, b"start", b"refused", n);
}
