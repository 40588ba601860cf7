// Numbers of one, two and four bytes in memory, low byte first. Bytes outside memory are an answer.
#![tactic(auto)]

ghost use Rattle.std.specs.Prelude.{◌≡◌, ◌+◌, ◌*◌};
ghost use Rattle.model.specs.step.Memory.{bytes_of, within, load_at, written_at};

use model::Size;

// The number that four bytes make, the lowest first.
pub fn number(a: u8, b: u8, c: u8, d: u8) -> u32
    ensures { result ≡ a + 256 * b + 65536 * (c + 256 * d) }
{
    u32::from_le_bytes([a, b, c, d])
}

// How many bytes a size is.
pub fn bytes(size: Size) -> usize
    ensures { result ≡ bytes_of size }
{
    size as usize
}

// Whether the bytes of this size from `at` lie in memory: behind the first of them is room for the rest.
#[tactic(auto, unfolding(model::specs::step::Memory::within), using(crate::proofs::Laws::bytes_pos))]
pub fn inside(m: &[u8], at: usize, size: Size) -> bool
    ensures { result ≡ within size m.now at }
{
    let rest = bytes(size) - 1;
    rest <= m.len() && at < m.len() - rest
}

// The number of this size at `at`, if it lies in memory.
#[tactic(auto, unfolding(model::specs::step::Memory::load_at), using(crate::proofs::Laws::fits))]
pub fn load(m: &[u8], at: usize, size: Size) -> Option<u32>
    ensures { result ≡ load_at size m.now at }
{
    if !inside(m, at, size) {
        return None;
    }
    match size {
        Size::One => Some(m[at] as u32),
        Size::Two => Some(u16::from_le_bytes([m[at], m[at + 1]]) as u32),
        Size::Four => Some(number(m[at], m[at + 1], m[at + 2], m[at + 3])),
    }
}

// Stores the low bytes of v, and says whether they lie in memory.
#[tactic(auto, unfolding(model::specs::step::Memory::written_at), using(crate::proofs::Laws::fits, crate::proofs::Laws::stored_by))]
pub fn store(m: &mut [u8], at: usize, size: Size, v: u32) -> bool
    ensures { (result ≡ within size m.old at) × (m.new ≡ written_at size m.old at v) }
{
    if !inside(m, at, size) {
        return false;
    }
    let [a, b, c, d] = v.to_le_bytes();
    match size {
        Size::One => m[at] = a,
        Size::Two => m[at..at + 2].copy_from_slice(&[a, b]),
        Size::Four => m[at..at + 4].copy_from_slice(&[a, b, c, d]),
    }
    true
}
