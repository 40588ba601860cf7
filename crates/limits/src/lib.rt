// What lengths, registers, sizes and values can be.
#![tactic(auto)]

ghost use Rattle.std.specs.Prelude.{◌≡◌, ◌+◌, ◌*◌, ◌<◌, ◌≤◌, MatchOption};
ghost use Rattle.limits.specs.Ranges.{IsRowRange};
ghost use Rattle.model.specs.Limits.{row_size};
ghost use Rattle.model.specs.step.Checks.{memory_fits, track_fits, lengths_fit, alignment_of, root_fits, in_window, domains_fit, registers_fit, is_size, fits_size};
ghost use Rattle.model.specs.step.Rows.{row_start};
ghost use Rattle.model.specs.step.Track.{rows_of, last_row};

use model::{OLD_SPLIT, Registers};
use std::ops::Range;

// Whether n bytes can be a memory.
#[tactic(auto, unfolding(model::specs::step::Checks::memory_fits))]
pub fn memory_fits(n: usize) -> bool
    ensures { result ≡ memory_fits n }
{
    n % 4096 == 0 && (4096..=16777216).contains(&n) // memory_unit, memory_most
}

// With this N, a root is a multiple of this.
#[tactic(auto, unfolding(model::specs::step::Checks::alignment_of))]
fn root_alignment(split: u32) -> u32
    ensures { (result ≡ alignment_of split) × (0 < result) }
{
    if split < 15 { 16384 >> split } else { 1 }
}

// Whether a root has its alignment with this N.
#[tactic(auto, unfolding(model::specs::step::Checks::root_fits))]
pub fn root_fits(split: u32, root: u32) -> bool
    ensures { result ≡ root_fits split root }
{
    root % root_alignment(split) == 0
}

// Whether an address lies in a window of so many MiB.
pub fn in_window(window: u32, a: u32) -> bool
    ensures { result ≡ in_window window a }
{
    a / 1048576 < window // section_size
}

// How many words a row has with such a window.
#[tactic(auto, unfolding(model::specs::Limits::row_size))]
pub fn row_size(window: u32) -> usize
    ensures { (result ≡ row_size window) × (result < 1099511627776) }
{
    256 * window as usize
}

// How many rows n words have.
pub fn rows(window: u32, n: usize) -> usize
    ensures { (result ≡ rows_of window n) × (result * row_size window ≤ n) }
{
    let size = row_size(window);
    if size == 0 {
        return 0;
    }
    n / size
}

// Where a row starts in n words, or n where it starts past them.
#[tactic(auto, unfolding(model::specs::step::Rows::row_start))]
pub fn row_start(window: u32, row: usize, n: usize) -> usize
    ensures { (result ≡ row_start (row_size window) row n) × (result ≤ n) }
{
    row.saturating_mul(row_size(window)).min(n)
}

// Where the words of a row stand among n words, where these have the whole row.
#[tactic(auto, unfolding(model::specs::step::Rows::row_start))]
pub fn row_range(window: u32, row: usize, n: usize) -> Option<Range<usize>>
    ensures { MatchOption result (n < row * row_size window + row_size window) (λ r. IsRowRange (row_size window) row n r.start r.end) }
{
    let size = row_size(window);
    let start = row_start(window, row, n);
    if n - start < size {
        return None;
    }
    Some(start..start + size)
}

// Whether n words can be a track.
#[tactic(auto, unfolding(model::specs::step::Rows::row_start, model::specs::step::Checks::track_fits))]
pub fn track_fits(window: u32, n: usize) -> bool
    ensures { result ≡ track_fits window n }
{
    let k = rows(window, n);
    row_start(window, k, n) == n && (2..=257).contains(&k) // contexts_most + 1
}

// The number of the last row of n words: the global row of a track, and how many contexts it has.
#[tactic(auto, unfolding(model::specs::step::Track::last_row))]
pub fn last_row(window: u32, n: usize) -> usize
    ensures { result ≡ last_row window n }
{
    rows(window, n).saturating_sub(1)
}

// Whether m bytes can be a memory, and t words a track.
#[tactic(auto, unfolding(model::specs::step::Checks::lengths_fit))]
pub fn lengths_fit(window: u32, m: usize, t: usize) -> bool
    ensures { result ≡ lengths_fit window m t }
{
    memory_fits(m) && track_fits(window, t)
}

// How many fields a domain register has.
const FIELDS: u32 = 16;

// Whether none of the fields of a domain register is 2.
#[tactic(auto, unfolding(model::specs::step::Checks::domains_fit, model::specs::step::Checks::fields_fit))]
pub fn domains_fit(domains: u32) -> bool
    ensures { result ≡ domains_fit domains }
{
    if domains == 0x5555_5555 { // as start sets them, and most lists leave them
        return true;
    }
    let mut rest = domains;
    for _ in 0..FIELDS {
        if rest % 4 == 2 {
            return false;
        }
        rest /= 4;
    }
    true
}

// Whether registers are in range with k contexts.
#[tactic(auto, unfolding(model::specs::step::Checks::registers_fit))]
pub fn registers_fit(r: Registers, k: usize) -> bool
    ensures { result ≡ registers_fit r k }
{
    root_fits(OLD_SPLIT, r.root)
        && (r.context as usize) < k
        && r.mode <= 1
        && domains_fit(r.domains)
}

// Whether b is a size.
pub fn is_size(b: u32) -> bool
    ensures { result ≡ is_size b }
{
    matches!(b, 1 | 2 | 4)
}

// Whether a word fits into b bytes.
pub fn fits_size(b: u32, c: u32) -> bool
    ensures { result ≡ fits_size b c }
{
    match b {
        1 => c < 256,
        2 => c < 65536,
        _ => true,
    }
}
