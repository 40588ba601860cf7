// Whether a store is quiet: it touches no byte that a present walk uses. The test goes over the level-one words of the window alone.
#![tactic(auto)]

ghost use Rattle.std.specs.Prelude.{◌≡◌};
ghost use Rattle.model.specs.step.Memory.{bytes_of};
ghost use Rattle.model.specs.step.Walk.{descriptor_at, first_from};
ghost use Rattle.runs.specs.Quiet.{overlap, touches_table, touches_tables, quiet};

use descriptor::first_of;
use memory::{bytes, load};
use model::{FirstLevel, FirstOutcome, Size, Tables};

// Whether the n bytes from a on and the k bytes from b on have one in common.
#[tactic(auto, unfolding(runs::specs::Quiet::overlap))]
fn overlaps(a: usize, n: usize, b: usize, k: usize) -> bool
    ensures { result ≡ overlap a n b k }
{
    if a < b { b - a < n } else { a - b < k }
}

// Whether the n bytes from `at` on touch the table that a level-one word points to, if it points to one.
fn touches_table(x: FirstOutcome, at: usize, n: usize) -> bool
    ensures { result ≡ touches_table x at n }
{
    match x {
        Ok(FirstLevel::Table(table)) => overlaps(at, n, table.base as usize, 1024), // table_size
        _ => false,
    }
}

// Whether they touch the table of the MiB whose level-one word stands at `first`.
fn touches_mib(m: &[u8], first: usize, at: usize, n: usize) -> bool
    ensures { result ≡ touches_table (first_from (descriptor_at m.now first) 0) at n }
{
    load(m, first, Size::Four).is_some_and(|w| touches_table(first_of(w, 0), at, n))
}

// Whether they touch the table of one of the first `mibs` MiB, the last of which is looked at first.
fn touches_tables(m: &[u8], tables: Tables, mibs: u32, at: usize, n: usize) -> bool
    ensures { result ≡ touches_tables m.now tables mibs at n }
{
    (0..mibs).any(|i| {
        let mib = (mibs - 1 - i) as usize;
        touches_mib(m, tables.root as usize + 4 * mib, at, n)
    })
}

// Whether a store of this size at `at` is quiet: it touches no level-one word of the window, and none of these tables.
#[tactic(auto, unfolding(runs::specs::Quiet::quiet, runs::specs::Quiet::touches))]
pub fn is_quiet(window: u32, m: &[u8], tables: Tables, at: usize, size: Size) -> bool
    ensures { result ≡ quiet window m.now tables at (bytes_of size) }
{
    let n = bytes(size);
    let words = 4 * window as usize; // word_size
    !overlaps(at, n, tables.root as usize, words) && !touches_tables(m, tables, window, at, n)
}
