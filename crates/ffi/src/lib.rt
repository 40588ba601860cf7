// Start and one step over words and bytes, so that a caller can hand the machine any state; `ffi_c` gives both to C.
#![tactic(auto)]

ghost use Rattle.std.specs.Prelude.{◌≡◌, cond, eqb, ltb, length, get_or, Some, None};
ghost use Rattle.model.specs.reference.Rules.{rooted};
ghost use Rattle.ffi.specs.Words.{kind_from, operation_from, registers_from, registers_into, answer_number, Left, step_call, start_call};

use model::{Answer, Kind, Operation, Registers, Setting};

// The kind with this number, where there is one.
#[tactic(auto, unfolding(crate::specs::Words::kind_from))]
fn kind_from(k: u32) -> Option<Kind>
    ensures { result ≡ cond (ltb k 11) (Some (kind_from k)) None }
{
    match k {
        0 => Some(Kind::Read),
        1 => Some(Kind::Write),
        2 => Some(Kind::Root),
        3 => Some(Kind::Asid),
        4 => Some(Kind::Mode),
        5 => Some(Kind::All),
        6 => Some(Kind::Addr),
        7 => Some(Kind::Ctx),
        8 => Some(Kind::AddrCtx),
        9 => Some(Kind::Fetch),
        10 => Some(Kind::Domain),
        _ => None,
    }
}

// The operation in four words: kind, a, b and c.
#[tactic(auto, unfolding(crate::specs::Words::operation_from))]
fn operation_from(o: &[u32]) -> Option<Operation>
    ensures { result ≡ cond (eqb (length o.now) 4) (cond (ltb (get_or o.now 0 0) 11) (Some (operation_from o.now)) None) None }
{
    let &[kind, a, b, c] = o else {
        return None;
    };
    let kind = kind_from(kind)?;
    Some(Operation { kind, a, b, c })
}

// The registers in four words: root, context, mode and domains.
#[tactic(auto, unfolding(crate::specs::Words::registers_from))]
fn registers_from(r: &[u32]) -> Option<Registers>
    ensures { result ≡ cond (eqb (length r.now) 4) (Some (registers_from r.now)) None }
{
    let &[root, context, mode, domains] = r else {
        return None;
    };
    Some(Registers {
        root,
        context,
        mode,
        domains,
    })
}

// Puts registers into four words.
#[tactic(auto, unfolding(crate::specs::Words::registers_into))]
fn registers_into(r: &mut [u32], x: Registers)
    requires { length r.old ≡ 4 }
    ensures { r.new ≡ registers_into r.old x }
{
    r.copy_from_slice(&[x.root, x.context, x.mode, x.domains]);
}

// An answer as a number: the value, 0x100000000 plus a fault, or 0x200000000 plus a refusal.
fn answer_number(x: Answer) -> u64
    ensures { result ≡ answer_number x }
{
    match x {
        Answer::Done(v) => v as u64,
        Answer::Faulted(f) => 0x100000000 + walk::fault_number(f) as u64,
        Answer::Refused(n) => 0x200000000 + checks::refusal_number(n) as u64,
    }
}

// One operation: kind, a, b and c in `o`; root, context, mode and domains in `r`, which holds the registers returned afterwards. Words
// that are no operation or no registers give 0x300000000 and change nothing.
#[tactic(auto, unfolding(crate::specs::Words::step_call, crate::specs::Words::are_words))]
pub fn machine_step(o: &[u32], r: &mut [u32], m: &mut [u8], t: &mut [u32]) -> u64
    ensures { Left (step_call o.now r.old m.old t.old) result r.new m.new t.new }
{
    let (Some(op), Some(regs)) = (operation_from(o), registers_from(r)) else {
        return 0x300000000;
    };
    let y = machine::step(op, regs, m, t);
    registers_into(r, y.registers);
    answer_number(y.answer)
}

// A start; `r` holds the registers returned afterwards.
#[tactic(auto, unfolding(crate::specs::Words::start_call))]
pub fn machine_start(m: &[u8], t: &mut [u32], root: u32, r: &mut [u32]) -> u64
    ensures { Left (start_call m.now t.old (rooted root) r.old) result r.new m.now t.new }
{
    if r.len() != 4 {
        return 0x300000000;
    }
    let begun = machine::start(m, t, Setting { root });
    registers_into(r, begun.registers);
    answer_number(begun.answer)
}
