// Noting of one page: what the tables map there now is added to its sets in the row of a context and in the global row.
#![tactic(auto)]

ghost use Rattle.std.specs.Prelude.{◌≡◌, get_or, set};
ghost use Rattle.model.specs.Limits.{row_size};
ghost use Rattle.model.specs.step.Rows.{in_row};
ghost use Rattle.model.specs.step.Track.{add_outcome};
ghost use Rattle.runs.specs.Step.{note_found, note_one_page};

use limits::{last_row, row_range};
use model::{Outcome, Tables};
use noting::add_outcome;

// Notes a page of a row of this kind, by what its walk found.
fn note_found(row: &mut [u32], global: u32, page: usize, o: Outcome)
    ensures { row.new ≡ note_found global page o row.old }
{
    if page < row.len() {
        row[page] = add_outcome(global, row[page], o);
    }
}

// Notes it in one row of a track, where the track has it.
#[tactic(auto, unfolding(model::specs::step::Rows::in_row))]
fn note_in(window: u32, track: &mut [u32], row: usize, global: u32, page: usize, o: Outcome)
    ensures { track.new ≡ in_row (row_size window) row (note_found global page o) track.old }
{
    if let Some(words) = row_range(window, row, track.len()) {
        note_found(&mut track[words], global, page, o);
    }
}

// Notes a page in the row of a context, where the track has it, then in the global row.
#[tactic(auto, unfolding(runs::specs::Step::note_one_page))]
pub fn note_page(
    window: u32,
    m: &[u8],
    tables: Tables,
    track: &mut [u32],
    context: usize,
    page: usize,
)
    ensures { track.new ≡ note_one_page window m.now tables context page track.old }
{
    let last = last_row(window, track.len());
    let o = walk::walk(m, tables, page);
    note_in(window, track, context, 0, page, o);
    note_in(window, track, last, 1, page, o);
}
