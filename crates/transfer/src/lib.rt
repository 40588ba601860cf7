// Reads, writes and fetches carried out, and noting, which follows whatever is carried out.
#![tactic(auto)]

ghost use Rattle.std.specs.Prelude.{◌≡◌};
ghost use Rattle.model.specs.Limits.{old_window};
ghost use Rattle.model.specs.step.Machine.{Gives, carried, value_of, read_from, write_to, read_step, write_step, fetch_step, tables_of};
ghost use Rattle.model.specs.step.Memory.{written_at};
ghost use Rattle.model.specs.step.Track.{note_track};

use access::access_at;
use model::{Access, Answer, OLD_WINDOW, Purpose, Refusal, Registers, Returned, Size};

// The number that loading found.
pub fn value_of(x: Option<u32>) -> u32
    ensures { result ≡ value_of x }
{
    x.unwrap_or(0)
}

// Carried out: the track is noted with the registers and the memory left.
pub fn carry(x: Answer, left: Registers, m: &[u8], t: &mut [u32]) -> Returned
    ensures { Gives (carried x left m.now t.old) result m.now t.new }
{
    let tables = left.tables();
    noting::note(OLD_WINDOW, m, tables, t, left.context as usize);
    Returned {
        answer: x,
        registers: left,
    }
}

// The same after a flush that has emptied sets, which noting fills again.
pub fn carry_flushed(answer: Answer, r: Registers, m: &[u8], t: &mut [u32]) -> Returned
    ensures { Gives (carried answer r m.now t.old) result m.now t.new }
{
    noting::note_rows(OLD_WINDOW, m, r.tables(), t, r.context as usize);
    Returned {
        answer,
        registers: r,
    }
}

// Stores, then notes with the memory that is left.
pub fn store_and_note(at: usize, size: Size, v: u32, r: Registers, m: &mut [u8], t: &mut [u32])
    ensures { (m.new ≡ written_at size m.old at v) × (t.new ≡ note_track old_window m.new (tables_of r) r.context t.old) }
{
    let tables = r.tables();
    memory::store(m, at, size, v);
    noting::note(OLD_WINDOW, m, tables, t, r.context as usize);
}

// A read or a fetch, by what its access comes to.
fn read_from(x: Access, size: Size, r: Registers, m: &[u8], t: &mut [u32]) -> Returned
    ensures { Gives (read_from x size r m.now t.old) result m.now t.new }
{
    match x {
        Access::Stale => Returned {
            answer: Answer::Refused(Refusal::StalePage),
            registers: r,
        },
        Access::Fails(f) => carry(Answer::Faulted(f), r, m, t),
        Access::Physical(at) => {
            let v = value_of(memory::load(m, at, size));
            carry(Answer::Done(v), r, m, t)
        }
    }
}

// A write, by what its access comes to.
fn write_to(x: Access, size: Size, v: u32, r: Registers, m: &mut [u8], t: &mut [u32]) -> Returned
    ensures { Gives (write_to x size v r m.old t.old) result m.new t.new }
{
    match x {
        Access::Stale => Returned {
            answer: Answer::Refused(Refusal::StalePage),
            registers: r,
        },
        Access::Fails(why) => carry(Answer::Faulted(why), r, m, t),
        Access::Physical(at) => {
            store_and_note(at, size, v, r, m, t);
            Returned {
                answer: Answer::Done(0),
                registers: r,
            }
        }
    }
}

// A read whose fields have passed the checks.
#[tactic(auto, unfolding(model::specs::step::Machine::read_step))]
pub fn read(a: u32, size: Size, r: Registers, m: &[u8], t: &mut [u32]) -> Returned
    ensures { Gives (read_step a size r m.now t.old) result m.now t.new }
{
    let x = access_at(r, m, t, Purpose::ToRead, size, a);
    read_from(x, size, r, m, t)
}

// A write whose fields have passed the checks.
#[tactic(auto, unfolding(model::specs::step::Machine::write_step))]
pub fn write(a: u32, size: Size, v: u32, r: Registers, m: &mut [u8], t: &mut [u32]) -> Returned
    ensures { Gives (write_step a size v r m.old t.old) result m.new t.new }
{
    let x = access_at(r, m, t, Purpose::ToWrite, size, a);
    write_to(x, size, v, r, m, t)
}

// A fetch whose address has passed the checks: four bytes.
#[tactic(auto, unfolding(model::specs::step::Machine::fetch_step))]
pub fn fetch(a: u32, r: Registers, m: &[u8], t: &mut [u32]) -> Returned
    ensures { Gives (fetch_step a r m.now t.old) result m.now t.new }
{
    let x = access_at(r, m, t, Purpose::ToFetch, Size::Four, a);
    read_from(x, Size::Four, r, m, t)
}
