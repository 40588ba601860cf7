// The whole report: from the bytes of an image and of a list to the bytes of the report.
#![tactic(auto)]

ghost use Rattle.std.specs.Prelude.{◌≡◌, ◌+◌, ◌*◌, ◌≤◌, length, IfOk};
ghost use Rattle.model.specs.Limits.{old_window};
ghost use Rattle.model.specs.declared.Answer.TheVariants.{Done};
ghost use Rattle.model.specs.step.Machine.{After};
ghost use Rattle.runs.specs.Noted.{Noted};
ghost use Rattle.listing.specs.Whole.{read_list, read_lines};
ghost use Rattle.report.specs.Report.{memory_length, looks_at_list, replayed, body_of, report_of, Ran, called, GivesReport};

use listing::Reason;
use model::{Answer, Registers, Setting};
use text::Writer;

// Why a call gives no report.
#[derive(Clone, Copy)]
pub enum NoReport {
    ShortBuffer,
    WrongTrack,
    WrongCounts,
}

// The memory that an image file of n bytes gives.
fn memory_length(n: usize) -> usize
    ensures { result ≡ memory_length n }
{
    if n <= 32768 { n } else { 0 } // image_limit
}

// Whether the list is looked at: a start from an image file of n bytes is accepted.
pub fn looks_at_list(n: usize) -> bool
    ensures { result ≡ looks_at_list n }
{
    checks::check_start(memory_length(n), 9216, Setting { root: 0 }).is_ok() // track_length
}

// Carries out the lines of a list, the first of which is line 2, on a track that is noted, and puts their lines into the report.
fn lines(r: Registers, m: &mut [u8], t: &mut [u32], list: &[u8], w: &mut Writer)
    requires size { length list.now ≤ 65536 }
    requires room { w.old.at + (4 * length list.now + 64) ≤ length w.old.out.now }
    requires noted { Noted old_window (record { memory = m.old; registers = r }) t.old }
    ensures same_buffer { w.new.out.ghost_name ≡ w.old.out.ghost_name }
    ensures ran { Ran (replayed 2 (record { answer = Done 0; registers = r; memory = m.old; track = t.old }) (read_lines (length list.now) 2 list.now)) w.old.out.now w.old.at w.new.at m.new t.new w.new.out.now }
{
    let mut regs = r;
    let mut left = list;
    let mut line: u32 = 2;
    while 0 < left.len() {
        match listing::read_line(left) {
            Ok(o) => {
                let y = run_step::step(o, regs, m, t);
                regs = y.registers;
                report_line::put_answer(w, line, o.kind, y.answer);
            }
            Err(x) => return report_line::put_refusal(w, line, listing::list_number(x)),
        }
        left = listing::rest(left);
        line += 1;
    }
}

// The list after an accepted start: too long, no names line, or its lines.
fn read_list(r: Registers, m: &mut [u8], t: &mut [u32], list: &[u8], w: &mut Writer)
    requires room { w.old.at + 262208 ≤ length w.old.out.now }
    requires noted { Noted old_window (record { memory = m.old; registers = r }) t.old }
    ensures same_buffer { w.new.out.ghost_name ≡ w.old.out.ghost_name }
    ensures ran { Ran (replayed 2 (record { answer = Done 0; registers = r; memory = m.old; track = t.old }) (read_list list.now)) w.old.out.now w.old.at w.new.at m.new t.new w.new.out.now }
{
    if listing::too_long(list) {
        report_line::put_refusal(w, 1, listing::list_number(Reason::TooLong));
    } else if listing::has_names(list) {
        lines(r, m, t, listing::rest(list), w);
    } else {
        report_line::put_refusal(w, 1, listing::list_number(Reason::Names));
    }
}

// The report behind its header, from the start on.
fn body(m: &mut [u8], t: &mut [u32], list: &[u8], w: &mut Writer)
    requires { w.old.at + 262208 ≤ length w.old.out.now }
    ensures same_buffer { w.new.out.ghost_name ≡ w.old.out.ghost_name }
    ensures ran { Ran (body_of m.old t.old list.now) w.old.out.now w.old.at w.new.at m.new t.new w.new.out.now }
{
    let begun = machine::start(m, t, Setting { root: 0 });
    match begun.answer {
        Answer::Refused(n) => report_line::put_start(w, checks::refusal_number(n)),
        Answer::Done(_) | Answer::Faulted(_) => read_list(begun.registers, m, t, list, w),
    }
}

// The whole report, its header and then the rest, and how long it is.
fn whole(m: &mut [u8], t: &mut [u32], list: &[u8], out: &mut [u8]) -> usize
    requires { 262272 ≤ length out.old }
    ensures { Ran (report_of m.old t.old list.now) out.old 0 result m.new t.new out.new }
{
    let mut w = Writer::new(out);
    report_line::put_header(&mut w);
    body(m, t, list, &mut w);
    w.at
}

// Writes the report of an image buffer of which n bytes were read and a list buffer of which k were, and answers how long it is. `image` and `track` hold
// memory and track afterwards, and `out` holds the report in front of what it held. A count above its buffer has an answer, so each buffer goes with its count.
#[tactic(auto, unfolding(crate::specs::Report::called), using(crate::proofs::ReportLaws::gives_report, crate::proofs::ShownLaws::report_fits))]
pub fn write_report(
    image: &mut [u8],
    n: usize,
    list: &[u8],
    k: usize,
    track: &mut [u32],
    out: &mut [u8],
) -> Result<usize, NoReport>
    ensures gives { GivesReport (called image.old n list.now k track.old out.old) result image.new track.new out.new }
    ensures fits { IfOk result (λ size. size ≤ length out.new) }
{
    if out.len() < 262272 { // report_limit
        return Err(NoReport::ShortBuffer);
    }
    if track.len() != 9216 { // track_length
        return Err(NoReport::WrongTrack);
    }
    if image.len() < n || list.len() < k {
        return Err(NoReport::WrongCounts);
    }
    let size = memory_length(n);
    Ok(whole(&mut image[..size], track, &list[..k], out))
}
