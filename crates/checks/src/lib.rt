// The checks that stand before an access, one function to each, and the numbers of refusals.
#![tactic(auto)]

ghost use Rattle.std.specs.Prelude.{◌≡◌, cond, ◌<◌, Ok, Err};
ghost use Rattle.model.specs.Numbers.{refusal_number};
ghost use Rattle.model.specs.step.Checks.{size_fits, address_fits, value_fits, new_root_fits, context_fits, mode_fits, new_domains_fit, may_ask, root_may_change, checks, start_checks, first_failing, Says};

use limits::{
    domains_fit, fits_size, in_window, is_size, last_row, lengths_fit, registers_fit, root_fits,
};
use model::{Kind, OLD_SPLIT, OLD_WINDOW, Operation, Refusal, Registers, Setting};

// Whether the size of a read or a write is one.
#[tactic(auto, unfolding(model::specs::step::Checks::size_fits))]
pub fn size_fits(kind: Kind, b: u32) -> bool
    ensures { result ≡ size_fits kind b }
{
    match kind {
        Kind::Read | Kind::Write => is_size(b),
        _ => true,
    }
}

// Whether the virtual address of an operation lies in the window.
#[tactic(auto, unfolding(model::specs::step::Checks::address_fits))]
pub fn address_fits(window: u32, kind: Kind, a: u32) -> bool
    ensures { result ≡ address_fits window kind a }
{
    match kind {
        Kind::Read | Kind::Write | Kind::Addr | Kind::AddrCtx | Kind::Fetch => in_window(window, a),
        _ => true,
    }
}

// Whether the value of a write fits its size.
#[tactic(auto, unfolding(model::specs::step::Checks::value_fits))]
pub fn value_fits(kind: Kind, b: u32, c: u32) -> bool
    ensures { result ≡ value_fits kind b c }
{
    match kind {
        Kind::Write => fits_size(b, c),
        _ => true,
    }
}

// Whether a new root has its alignment.
#[tactic(auto, unfolding(model::specs::step::Checks::new_root_fits))]
pub fn new_root_fits(split: u32, kind: Kind, a: u32) -> bool
    ensures { result ≡ new_root_fits split kind a }
{
    match kind {
        Kind::Root => root_fits(split, a),
        _ => true,
    }
}

// Whether the context that an operation names is one of k.
#[tactic(auto, unfolding(model::specs::step::Checks::context_fits))]
pub fn context_fits(kind: Kind, a: u32, b: u32, k: usize) -> bool
    ensures { result ≡ context_fits kind a b k }
{
    match kind {
        Kind::Asid | Kind::Ctx => (a as usize) < k,
        Kind::AddrCtx => (b as usize) < k,
        _ => true,
    }
}

// Whether a new mode is one.
#[tactic(auto, unfolding(model::specs::step::Checks::mode_fits))]
pub fn mode_fits(kind: Kind, a: u32) -> bool
    ensures { result ≡ mode_fits kind a }
{
    match kind {
        Kind::Mode => a <= 1,
        _ => true,
    }
}

// Whether no field of a new domain register is 2.
#[tactic(auto, unfolding(model::specs::step::Checks::new_domains_fit))]
pub fn new_domains_fit(kind: Kind, a: u32) -> bool
    ensures { result ≡ new_domains_fit kind a }
{
    match kind {
        Kind::Domain => domains_fit(a),
        _ => true,
    }
}

// Whether an operation may be asked for in this mode.
#[tactic(auto, unfolding(model::specs::step::Checks::may_ask))]
pub fn may_ask(kind: Kind, mode: u32) -> bool
    ensures { result ≡ may_ask kind mode }
{
    match kind {
        Kind::Read | Kind::Write | Kind::Mode | Kind::Fetch => true,
        _ => mode == 0,
    }
}

// Whether an operation, if it sets the root, may do so in this context.
#[tactic(auto, unfolding(model::specs::step::Checks::root_may_change))]
pub fn root_may_change(kind: Kind, context: u32) -> bool
    ensures { result ≡ root_may_change kind context }
{
    match kind {
        Kind::Root => context == 0,
        _ => true,
    }
}

// One check: where it does not pass, this is why.
fn test(passes: bool, why: Refusal) -> Result<(), Refusal>
    ensures { result ≡ cond passes (Ok tt) (Err why) }
{
    if passes { Ok(()) } else { Err(why) }
}

// The first check that an operation fails, on a memory of m bytes and a track of t words.
#[tactic(auto, unfolding(model::specs::step::Checks::first_failing, model::specs::step::Checks::checks))]
pub fn check(o: Operation, r: Registers, m: usize, t: usize) -> Result<(), Refusal>
    ensures { Says (first_failing (checks o r m t)) result }
{
    let kind = o.kind;
    let contexts = last_row(OLD_WINDOW, t);
    test(lengths_fit(OLD_WINDOW, m, t), Refusal::WrongLengths)?;
    test(registers_fit(r, contexts), Refusal::WrongRegisters)?;
    test(size_fits(kind, o.b), Refusal::WrongSize)?;
    test(address_fits(OLD_WINDOW, kind, o.a), Refusal::WrongAddress)?;
    test(value_fits(kind, o.b, o.c), Refusal::WrongValue)?;
    test(new_root_fits(OLD_SPLIT, kind, o.a), Refusal::WrongRoot)?;
    test(
        context_fits(kind, o.a, o.b, contexts),
        Refusal::WrongContext,
    )?;
    test(mode_fits(kind, o.a), Refusal::WrongMode)?;
    test(new_domains_fit(kind, o.a), Refusal::WrongDomains)?;
    test(may_ask(kind, r.mode), Refusal::UserMode)?;
    test(root_may_change(kind, r.context), Refusal::NotContext0)
}

// The first check that a start fails.
#[tactic(auto, unfolding(model::specs::step::Checks::first_failing, model::specs::step::Checks::start_checks))]
pub fn check_start(m: usize, t: usize, setting: Setting) -> Result<(), Refusal>
    ensures { Says (first_failing (start_checks m t setting)) result }
{
    test(lengths_fit(OLD_WINDOW, m, t), Refusal::WrongLengths)?;
    test(root_fits(OLD_SPLIT, setting.root), Refusal::WrongRoot)
}

// The number of a refusal.
pub fn refusal_number(n: Refusal) -> u32
    ensures { (result ≡ refusal_number n) × (result < 32) }
{
    n as u32
}
