// What a TLB may remember, in the words of a track: a row for each context, then one for the global entries. A row has a word for each
// page of the window, and is lent on by itself. What is done to a word or a row is told the row's kind by the number `global`: 0 for a
// context's row, 1 for the global row.
#![tactic(auto)]

ghost use Rattle.std.specs.Prelude.{◌≡◌};
ghost use Rattle.model.specs.Limits.{row_size};
ghost use Rattle.model.specs.step.Rows.{in_row};
ghost use Rattle.model.specs.step.Track.{is_entry, add_entry, empty_page, empty_row, flush_all, flush_page, flush_context, flush_page_in, word_at, stale_word, stale_page};

use limits::{last_row, row_range, row_start, rows};
use model::Outcome;

// Whether a word of a row of this kind stands for one entry.
#[tactic(auto, unfolding(model::specs::step::Track::is_entry))]
pub fn is_entry(global: u32, w: u32) -> bool
    ensures { result ≡ is_entry global w }
{
    w % 4 == 2 && w / 128 % 2 == global
}

// A word of such a row after the entry with word v was added to its set.
#[tactic(auto, unfolding(model::specs::step::Track::add_entry))]
pub fn add_entry(global: u32, w: u32, v: u32) -> u32
    ensures { result ≡ add_entry global w v }
{
    match w {
        0 => v,
        _ if w == v => w,
        _ if is_entry(global, w) => 1,
        _ => w,
    }
}

// Empties every set of a row.
pub fn empty_row(row: &mut [u32])
    ensures { row.new ≡ empty_row row.old }
{
    for p in 0..row.len() {
        row[p] = 0;
    }
}

// Empties the set of one page of a row.
pub fn empty_page(row: &mut [u32], page: usize)
    ensures { row.new ≡ empty_page page row.old }
{
    if page < row.len() {
        row[page] = 0;
    }
}

// Empties the row of a context, where the track has it.
#[tactic(auto, unfolding(model::specs::step::Rows::in_row, model::specs::step::Track::flush_context))]
pub fn flush_context(window: u32, track: &mut [u32], context: usize)
    ensures { track.new ≡ flush_context window context track.old }
{
    if let Some(row) = row_range(window, context, track.len()) {
        empty_row(&mut track[row]);
    }
}

// Empties the set of a page in one row of a track, where the track has it.
#[tactic(auto, unfolding(model::specs::step::Rows::in_row))]
fn empty_in(window: u32, track: &mut [u32], row: usize, page: usize)
    ensures { track.new ≡ in_row (row_size window) row (empty_page page) track.old }
{
    if let Some(row) = row_range(window, row, track.len()) {
        empty_page(&mut track[row], page);
    }
}

// Empties the set of a page in a context, where the track has it, and its global set.
#[tactic(auto, unfolding(model::specs::step::Track::flush_page_in))]
pub fn flush_page_in(window: u32, track: &mut [u32], context: usize, page: usize)
    ensures { track.new ≡ flush_page_in window context page track.old }
{
    let last = last_row(window, track.len());
    empty_in(window, track, context, page);
    empty_in(window, track, last, page);
}

// Empties every set.
#[tactic(auto, unfolding(model::specs::step::Rows::each_row, model::specs::step::Track::flush_all, model::specs::step::Track::flush_context))]
pub fn flush_all(window: u32, track: &mut [u32])
    ensures { track.new ≡ flush_all window track.old }
{
    for row in 0..rows(window, track.len()) {
        flush_context(window, track, row);
    }
}

// Empties the set of a page in every context, and its global set.
#[tactic(auto, unfolding(model::specs::step::Rows::each_row, model::specs::step::Track::flush_page))]
pub fn flush_page(window: u32, track: &mut [u32], page: usize)
    ensures { track.new ≡ flush_page window page track.old }
{
    for row in 0..rows(window, track.len()) {
        empty_in(window, track, row, page);
    }
}

// The word of a row and a page, or 0 where the track has none.
pub fn word_at(window: u32, track: &[u32], row: usize, page: usize) -> u32
    ensures { result ≡ word_at window track.now row page }
{
    let start = row_start(window, row, track.len());
    track[start..].get(page).copied().unwrap_or(0)
}

// Whether a word of a row of this kind makes its page stale.
#[tactic(auto, unfolding(model::specs::step::Track::stale_word))]
pub fn is_stale(global: u32, w: u32, o: Outcome) -> bool
    ensures { result ≡ stale_word global w o }
{
    w != 0
        && match o {
            Ok(e) => e.global != global || w != walk::entry_word(e),
            Err(_) => true,
        }
}

// Whether a page with this outcome is stale, by its word in the row of a context or by its word in the global row.
#[tactic(auto, unfolding(model::specs::step::Track::stale_page))]
pub fn is_stale_page(window: u32, track: &[u32], context: u32, page: usize, o: Outcome) -> bool
    ensures { result ≡ stale_page window track.now context page o }
{
    let own = word_at(window, track, context as usize, page);
    let shared = word_at(window, track, last_row(window, track.len()), page);
    is_stale(0, own, o) || is_stale(1, shared, o)
}
