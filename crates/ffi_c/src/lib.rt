// Start and one step as C functions.
#![tactic(auto)]

ghost use Rattle.model.specs.reference.Rules.{rooted};
ghost use Rattle.ffi.specs.Words.{Left, step_call, start_call};

// One operation: kind, a, b and c in `o`; root, context, mode and domains in `r`, which holds the registers returned afterwards. Words
// that are no operation or no registers give 0x300000000 and change nothing.
#[unsafe(no_mangle)]
pub extern "C" fn machine_step(o: &[u32], r: &mut [u32], m: &mut [u8], t: &mut [u32]) -> u64
    ensures { Left (step_call o.now r.old m.old t.old) result r.new m.new t.new }
{
    ffi::machine_step(o, r, m, t)
}

// A start; `r` holds the registers returned afterwards.
#[unsafe(no_mangle)]
pub extern "C" fn machine_start(m: &[u8], t: &mut [u32], root: u32, r: &mut [u32]) -> u64
    ensures { Left (start_call m.now t.old (rooted root) r.old) result r.new m.now t.new }
{
    ffi::machine_start(m, t, root, r)
}
