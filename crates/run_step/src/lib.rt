// One operation of a run from an accepted start: the answer, registers and memory of a full step, and of the track no more is noted than
// the operation may have changed. After an accepted start that is the track of a full step.
#![tactic(auto)]

ghost use Rattle.std.specs.Prelude.{◌≡◌, cond, eqb};
ghost use Rattle.model.specs.Limits.{old_window};
ghost use Rattle.model.specs.declared.Answer.TheVariants.{Done};
ghost use Rattle.model.specs.step.Memory.{bytes_of, written_at};
ghost use Rattle.model.specs.step.Track.{flush_page, flush_page_in, flush_context};
ghost use Rattle.model.specs.step.Machine.{Gives, read_from, write_to, tables_of};
ghost use Rattle.runs.specs.Quiet.{quiet};
ghost use Rattle.runs.specs.Step.{no_page, every_page, after_write, note_one_page, note_extent, noted_so_far, run_operate, run_stepped};

use access::{access_at, size_of};
use machine::{carry_out, with_domains, with_mode};
use model::{
    Access, Answer, Kind, OLD_WINDOW, Operation, Purpose, Refusal, Registers, Returned, Size,
};
use page_noting::note_page;
use transfer::value_of;

// A read or a fetch, by what its access comes to: the track stays as lent.
fn read_from(x: Access, size: Size, r: Registers, m: &[u8], t: &[u32]) -> Returned
    ensures { Gives (noted_so_far old_window no_page (read_from x size r m.now t.now) t.now) result m.now t.now }
{
    let answer = match x {
        Access::Stale => Answer::Refused(Refusal::StalePage),
        Access::Fails(f) => Answer::Faulted(f),
        Access::Physical(at) => Answer::Done(value_of(memory::load(m, at, size))),
    };
    Returned {
        answer,
        registers: r,
    }
}

// Stores, and notes every page unless the store is quiet.
fn store(at: usize, size: Size, v: u32, r: Registers, m: &mut [u8], t: &mut [u32])
    ensures { (m.new ≡ written_at size m.old at v) × (t.new ≡ note_extent old_window (cond (quiet old_window m.old (tables_of r) at (bytes_of size)) no_page every_page) m.new (tables_of r) r.context t.old) }
{
    if quiet::is_quiet(OLD_WINDOW, m, r.tables(), at, size) {
        memory::store(m, at, size, v);
    } else {
        transfer::store_and_note(at, size, v, r, m, t);
    }
}

// A write, by what its access comes to.
fn write_to(x: Access, size: Size, v: u32, r: Registers, m: &mut [u8], t: &mut [u32]) -> Returned
    ensures { Gives (noted_so_far old_window (after_write old_window x size (tables_of r) m.old) (write_to x size v r m.old t.old) t.old) result m.new t.new }
{
    let answer = match x {
        Access::Stale => Answer::Refused(Refusal::StalePage),
        Access::Fails(why) => Answer::Faulted(why),
        Access::Physical(at) => {
            store(at, size, v, r, m, t);
            Answer::Done(0)
        }
    };
    Returned {
        answer,
        registers: r,
    }
}

// Notes again a page whose sets have been emptied.
fn note_again(page: usize, r: Registers, m: &[u8], t: &mut [u32])
    ensures { t.new ≡ note_one_page old_window m.now (tables_of r) r.context page t.old }
{
    note_page(OLD_WINDOW, m, r.tables(), t, r.context as usize, page);
}

// Empties the sets of a context, and notes every page again if it is the current one.
fn flush_context(named: u32, r: Registers, m: &[u8], t: &mut [u32])
    ensures { t.new ≡ note_extent old_window (cond (eqb named r.context) every_page no_page) m.now (tables_of r) r.context (flush_context old_window named t.old) }
{
    track::flush_context(OLD_WINDOW, t, named as usize);
    if named == r.context {
        noting::note_rows(OLD_WINDOW, m, r.tables(), t, r.context as usize);
    }
}

// Carried out, with these registers left.
fn done(r: Registers) -> Returned
    ensures { result ≡ record { answer = Done 0; registers = r } }
{
    Returned {
        answer: Answer::Done(0),
        registers: r,
    }
}

// An operation that has passed the checks.
#[tactic(auto, unfolding(runs::specs::Step::run_operate, runs::specs::Step::extent_of, runs::specs::Step::flushed_by, model::specs::step::Machine::operate, model::specs::step::Machine::read_step, model::specs::step::Machine::write_step, model::specs::step::Machine::fetch_step))]
fn operate(kind: Kind, o: Operation, r: Registers, m: &mut [u8], t: &mut [u32]) -> Returned
    ensures { Gives (run_operate kind o r m.old t.old) result m.new t.new }
{
    match kind {
        Kind::Read => {
            let size = size_of(o.b);
            let x = access_at(r, m, t, Purpose::ToRead, size, o.a);
            read_from(x, size, r, m, t)
        }
        Kind::Write => {
            let size = size_of(o.b);
            let x = access_at(r, m, t, Purpose::ToWrite, size, o.a);
            write_to(x, size, o.c, r, m, t)
        }
        Kind::Root | Kind::Asid | Kind::All => carry_out(kind, o, r, m, t),
        Kind::Mode => done(with_mode(r, o.a)),
        Kind::Addr => {
            let page = o.a as usize / 4096; // page_size
            track::flush_page(OLD_WINDOW, t, page);
            note_again(page, r, m, t);
            done(r)
        }
        Kind::Ctx => {
            flush_context(o.a, r, m, t);
            done(r)
        }
        Kind::AddrCtx => {
            let page = o.a as usize / 4096; // page_size
            track::flush_page_in(OLD_WINDOW, t, o.b as usize, page);
            note_again(page, r, m, t);
            done(r)
        }
        Kind::Fetch => {
            let x = access_at(r, m, t, Purpose::ToFetch, Size::Four, o.a);
            read_from(x, Size::Four, r, m, t)
        }
        Kind::Domain => done(with_domains(r, o.a)),
    }
}

// One operation in a run: its checks, its effect, and as much noting as it calls for.
#[tactic(auto, unfolding(runs::specs::Step::run_stepped))]
pub fn step(o: Operation, r: Registers, m: &mut [u8], t: &mut [u32]) -> Returned
    ensures { Gives (run_stepped o r m.old t.old) result m.new t.new }
{
    match checks::check(o, r, m.len(), t.len()) {
        Err(n) => Returned {
            answer: Answer::Refused(n),
            registers: r,
        },
        Ok(()) => operate(o.kind, o, r, m, t),
    }
}
