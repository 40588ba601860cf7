// Noting: what the tables map now is added to the sets of a track. Global entries go to the global row, the others to the row of the
// current context. A row is lent on by itself, a word for each page of the window, and told its kind by the number `global`: 0 for a
// context's row, 1 for the global row.
#![tactic(auto)]

ghost use Rattle.std.specs.Prelude.{◌≡◌, ℕ, true, ◌+◌, ◌-◌, ◌*◌, ◌/◌, ◌<◌, ◌≤◌, min, length};
ghost use Rattle.model.specs.Limits.{row_size};
ghost use Rattle.model.specs.declared.Size.TheVariants.{Four};
ghost use Rattle.model.specs.step.Memory.{number_at};
ghost use Rattle.model.specs.step.Rows.{map_words, in_row};
ghost use Rattle.model.specs.Types.{Outcome};
ghost use Rattle.model.specs.step.Walk.{second_at};
ghost use Rattle.model.specs.step.Track.{add_outcome, note_page, note_row, note_track};
ghost use Rattle.noting.specs.Mib.{mib_pages, Finds, note_found, note_mib, IsMibRange, Stays, Both};

use descriptor::{first_of, second_of, section_entry};
use limits::{last_row, row_range};
use memory::{load, number};
use model::{FirstLevel, Outcome, Pointer, Size, Tables};
use std::ops::Range;
use track::add_entry;

// How many pages a MiB has: mib_pages.
const MIB: usize = 256;

// A word of a row of this kind after noting what the walk of its page found.
pub fn add_outcome(global: u32, w: u32, o: Outcome) -> u32
    ensures { result ≡ add_outcome global w o }
{
    match o {
        Ok(e) if e.global == global => add_entry(global, w, walk::entry_word(e)),
        _ => w,
    }
}

// Notes pages by what their walks find: word i is that of page i.
fn note_pages<F: Fn(usize) -> Outcome>(global: u32, pages: &mut [u32], found: F)
    requires { (i : ℕ) → i < length pages.old → F.pre found i }
    ensures { (f : ℕ → Outcome) → Finds (F.post found) (length pages.old) f → pages.new ≡ map_words (note_found f global) pages.old }
{
    for (i, w) in pages.iter_mut().enumerate() {
        *w = add_outcome(global, *w, found(i));
    }
}

// The word at `at`, which lies in memory. Read by itself, it is one load.
fn word(m: &[u8], at: usize) -> u32
    requires { at + 4 ≤ length m.now }
    ensures { result ≡ number_at Four m.now at }
{
    number(m[at], m[at + 1], m[at + 2], m[at + 3])
}

// What a table says of page i of its MiB, whose descriptor lies in memory.
#[tactic(auto, using(crate::proofs::Mib::table_word))]
fn table_page(m: &[u8], table: Pointer, i: usize) -> Outcome
    requires one_mib { i < mib_pages }
    requires inside { table.base + 4 * i + 4 ≤ length m.now }
    ensures { result ≡ second_at m.now table i }
{
    let at = table.base as usize + 4 * i;
    second_of(word(m, at), i, table.domain)
}

// How many of the n words from `base` on lie in memory.
fn words_inside(m: &[u8], base: usize, n: usize) -> usize
    ensures { result ≡ min ((length m.now - base) / 4) n }
{
    (m.len().saturating_sub(base) / 4).min(n)
}

// Notes the pages of the MiB whose level-one descriptor stands at `at`: word i is that of page i. A page whose level-two descriptor lies
// outside memory stays as it is.
fn note_mib(m: &[u8], at: usize, global: u32, mib: &mut [u32])
    requires { length mib.old ≤ mib_pages }
    ensures { mib.new ≡ map_words (note_mib m.now at global) mib.old }
{
    if let Some(x) = load(m, at, Size::Four) {
        match first_of(x, 0) {
            Ok(FirstLevel::Section(_)) => note_pages(global, mib, |i| Ok(section_entry(x, i))),
            Ok(FirstLevel::Table(table)) => {
                let n = words_inside(m, table.base as usize, mib.len());
                note_pages(global, &mut mib[..n], |i| table_page(m, table, i));
            }
            Err(_) => {}
        }
    }
}

// Where the words of a MiB stand among the n words of a row.
fn mib_range(mib: usize, n: usize) -> Range<usize>
    ensures { IsMibRange mib n result.start result.end }
{
    let start = mib.saturating_mul(MIB).min(n);
    start..start + MIB.min(n - start)
}

// Notes a row of this kind: each of its words is one page's. The pages of a MiB share a level-one descriptor, which is read once.
pub fn note_row(m: &[u8], tables: Tables, global: u32, row: &mut [u32])
    ensures { row.new ≡ note_row m.now tables global row.old }
{
    for mib in 0..row.len().div_ceil(MIB) {
        let at = tables.root as usize + 4 * mib;
        let words = mib_range(mib, row.len());
        note_mib(m, at, global, &mut row[words]);
    }
}

// Notes one row of a track, where the track has it.
#[tactic(auto, unfolding(model::specs::step::Rows::in_row))]
fn note_in(window: u32, m: &[u8], tables: Tables, global: u32, track: &mut [u32], row: usize)
    ensures { track.new ≡ in_row (row_size window) row (note_row m.now tables global) track.old }
{
    if let Some(words) = row_range(window, row, track.len()) {
        note_row(m, tables, global, &mut track[words]);
    }
}

// Whether noting what the walk of its page found leaves its words in a context's row and in the global row as they are.
fn stays(own: u32, shared: u32, o: Outcome) -> bool
    ensures { result ≡ true → Stays own shared o }
{
    match o {
        Ok(e) => {
            let w = if e.global == 1 { shared } else { own };
            add_entry(e.global, w, walk::entry_word(e)) == w
        }
        Err(_) => true,
    }
}

// Whether noting pages by what their walks find leaves their words as they are. No word ends the look early, which would be slower.
fn pages_settled<F: Fn(usize) -> Outcome>(own: &[u32], shared: &[u32], found: F) -> bool
    requires same { length shared.now ≡ length own.now }
    requires callable { (i : ℕ) → i < length own.now → F.pre found i }
    ensures { (f : ℕ → Outcome) → Finds (F.post found) (length own.now) f → result ≡ true → Both (note_found f) own.now shared.now }
{
    let mut settled = true;
    for i in 0..own.len() {
        settled &= stays(own[i], shared[i], found(i));
    }
    settled
}

// Whether noting leaves the words of the MiB as they are whose level-one descriptor stands at `at`.
fn mib_settled(m: &[u8], at: usize, own: &[u32], shared: &[u32]) -> bool
    requires same { length shared.now ≡ length own.now }
    requires one_mib { length own.now ≤ mib_pages }
    ensures { result ≡ true → Both (note_mib m.now at) own.now shared.now }
{
    let Some(x) = load(m, at, Size::Four) else {
        return true;
    };
    match first_of(x, 0) {
        Ok(FirstLevel::Section(_)) => pages_settled(own, shared, |i| Ok(section_entry(x, i))),
        Ok(FirstLevel::Table(table)) => {
            let n = words_inside(m, table.base as usize, own.len());
            pages_settled(&own[..n], &shared[..n], |i| table_page(m, table, i))
        }
        Err(_) => true,
    }
}

// Whether noting leaves a context's row and the global row as they are.
fn rows_settled(m: &[u8], tables: Tables, own: &[u32], shared: &[u32]) -> bool
    requires { length shared.now ≡ length own.now }
    ensures { result ≡ true → Both (note_page m.now tables) own.now shared.now }
{
    for mib in 0..own.len().div_ceil(MIB) {
        let first = tables.root as usize + 4 * mib;
        let words = mib_range(mib, own.len());
        if !mib_settled(m, first, &own[words.start..words.end], &shared[words]) {
            return false;
        }
    }
    true
}

// Whether noting leaves a track as it is; false also where it lacks one of the two rows. Most notings change nothing. To see that, both
// rows are read together, which is quicker than to write each.
#[tactic(auto, unfolding(model::specs::step::Rows::in_row))]
fn is_settled(window: u32, m: &[u8], tables: Tables, track: &[u32], context: usize) -> bool
    ensures { result ≡ true → track.now ≡ note_track window m.now tables context track.now }
{
    let last = last_row(window, track.len());
    let (Some(own), Some(shared)) = (
        row_range(window, context, track.len()),
        row_range(window, last, track.len()),
    ) else {
        return false;
    };
    rows_settled(m, tables, &track[own], &track[shared])
}

// Notes the row of a context, where the track has it, then the global row.
#[tactic(auto, unfolding(model::specs::step::Track::note_track))]
pub fn note_rows(window: u32, m: &[u8], tables: Tables, track: &mut [u32], context: usize)
    ensures { track.new ≡ note_track window m.now tables context track.old }
{
    let last = last_row(window, track.len());
    note_in(window, m, tables, 0, track, context);
    note_in(window, m, tables, 1, track, last);
}

// The same, but that it looks first whether anything is to be noted: what to call where mostly nothing is.
pub fn note(window: u32, m: &[u8], tables: Tables, track: &mut [u32], context: usize)
    ensures { track.new ≡ note_track window m.now tables context track.old }
{
    if !is_settled(window, m, tables, track, context) {
        note_rows(window, m, tables, track, context);
    }
}
