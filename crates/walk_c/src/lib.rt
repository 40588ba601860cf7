// The walk of one address over an image, as a C function.
#![tactic(auto)]

ghost use Rattle.std.specs.Prelude.{◌≡◌};
ghost use Rattle.model.specs.step.WalkAnswer.{walk_answer};

// An entry's track word, 0x100000000 plus a fault, or 0x200000000 plus a refusal.
#[unsafe(no_mangle)]
pub extern "C" fn walk_image(image: &[u8], root: u32, address: u32) -> u64
    ensures { result ≡ walk_answer image.now root address }
{
    walk::walk_image(image, root, address)
}
