// The machine: start, and one operation. Registers go by value; memory and track are lent.
#![tactic(auto)]

ghost use Rattle.std.specs.Prelude.{◌≡◌};
ghost use Rattle.model.specs.step.Machine.{Gives, with_root, with_context, with_mode, with_domains, operate, stepped, started};

use access::size_of;
use model::{Answer, Kind, OLD_WINDOW, Operation, Registers, Returned, Setting};
use transfer::{carry, carry_flushed, fetch, read, write};

// The registers with another root, another context, another mode, another domain register.
fn with_root(r: Registers, a: u32) -> Registers
    ensures { result ≡ with_root r a }
{
    Registers { root: a, ..r }
}

fn with_context(r: Registers, a: u32) -> Registers
    ensures { result ≡ with_context r a }
{
    Registers { context: a, ..r }
}

pub fn with_mode(r: Registers, a: u32) -> Registers
    ensures { result ≡ with_mode r a }
{
    Registers { mode: a, ..r }
}

pub fn with_domains(r: Registers, a: u32) -> Registers
    ensures { result ≡ with_domains r a }
{
    Registers { domains: a, ..r }
}

// An operation that has passed the checks.
#[tactic(auto, unfolding(model::specs::step::Machine::operate))]
pub fn carry_out(kind: Kind, o: Operation, r: Registers, m: &mut [u8], t: &mut [u32]) -> Returned
    ensures { Gives (operate kind o r m.old t.old) result m.new t.new }
{
    match kind {
        Kind::Read => read(o.a, size_of(o.b), r, m, t),
        Kind::Write => write(o.a, size_of(o.b), o.c, r, m, t),
        Kind::Root => carry(Answer::Done(0), with_root(r, o.a), m, t),
        Kind::Asid => carry(Answer::Done(0), with_context(r, o.a), m, t),
        Kind::Mode => carry(Answer::Done(0), with_mode(r, o.a), m, t),
        Kind::All => {
            track::flush_all(OLD_WINDOW, t);
            carry_flushed(Answer::Done(0), r, m, t)
        }
        Kind::Addr => {
            track::flush_page(OLD_WINDOW, t, o.a as usize / 4096); // page_size
            carry_flushed(Answer::Done(0), r, m, t)
        }
        Kind::Ctx => {
            track::flush_context(OLD_WINDOW, t, o.a as usize);
            carry(Answer::Done(0), r, m, t)
        }
        Kind::AddrCtx => {
            track::flush_page_in(OLD_WINDOW, t, o.b as usize, o.a as usize / 4096); // page_size
            carry_flushed(Answer::Done(0), r, m, t)
        }
        Kind::Fetch => fetch(o.a, r, m, t),
        Kind::Domain => carry(Answer::Done(0), with_domains(r, o.a), m, t),
    }
}

// One operation: its checks, its effect, and noting.
#[tactic(auto, unfolding(model::specs::step::Machine::stepped))]
pub fn step(o: Operation, r: Registers, m: &mut [u8], t: &mut [u32]) -> Returned
    ensures { Gives (stepped o r m.old t.old) result m.new t.new }
{
    match checks::check(o, r, m.len(), t.len()) {
        Err(n) => Returned {
            answer: Answer::Refused(n),
            registers: r,
        },
        Ok(()) => carry_out(o.kind, o, r, m, t),
    }
}

// A start: context 0, kernel mode, each field of the domain register 1, the track emptied and noted.
#[tactic(auto, unfolding(model::specs::step::Machine::started))]
pub fn start(m: &[u8], t: &mut [u32], setting: Setting) -> Returned
    ensures { Gives (started m.now t.old setting) result m.now t.new }
{
    match checks::check_start(m.len(), t.len(), setting) {
        Err(n) => Returned {
            answer: Answer::Refused(n),
            registers: Registers {
                root: 0,
                context: 0,
                mode: 0,
                domains: 0,
            },
        },
        Ok(()) => {
            track::flush_all(OLD_WINDOW, t);
            carry_flushed(
                Answer::Done(0),
                Registers {
                    root: setting.root,
                    context: 0,
                    mode: 0,
                    domains: 0x55555555,
                },
                m,
                t,
            )
        }
    }
}
