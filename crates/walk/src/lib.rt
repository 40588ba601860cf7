// The walk of two-level tables in byte memory, and the same over an image, which `walk_c` gives to C.
#![tactic(auto)]

ghost use Rattle.std.specs.Prelude.{◌≡◌, ◌+◌, ◌<◌};
ghost use Rattle.model.specs.Numbers.{fault_number, refusal_number, first_fault};
ghost use Rattle.model.specs.Telling.{Tells};
ghost use Rattle.model.specs.step.Walk.{first_at, second_at, walk_page};
ghost use Rattle.model.specs.step.WalkAnswer.{outcome_number, walk_answer};
ghost use Rattle.model.specs.step.Track.{entry_word};

use descriptor::{first_of, second_of};
use limits::{in_window, memory_fits, root_fits};
use memory::load;
use model::{
    Entry, Fault, FirstLevel, FirstOutcome, OLD_SPLIT, OLD_WINDOW, Outcome, Pointer, Refusal, Size,
    Tables,
};

// The short-descriptor status code of a fault.
pub fn fault_number(f: Fault) -> u32
    ensures { (result ≡ fault_number f) × (result < 16) }
{
    f as u32
}

// What level one says of a page.
#[tactic(auto, unfolding(model::specs::step::Walk::first_at))]
pub fn level_one(m: &[u8], tables: Tables, page: usize) -> FirstOutcome
    ensures { Tells first_fault (first_at m.now tables page) result }
{
    let at = tables.root as usize + 4 * (page / 256);
    let w = load(m, at, Size::Four).ok_or(Fault::FirstOutside)?;
    first_of(w, page)
}

// What a table says of a page.
#[tactic(auto, unfolding(model::specs::step::Walk::second_at))]
pub fn level_two(m: &[u8], table: Pointer, page: usize) -> Outcome
    ensures { Tells outcome_number (second_at m.now table page) result }
{
    let at = table.base as usize + 4 * (page % 256);
    let w = load(m, at, Size::Four).ok_or(Fault::SecondOutside)?;
    second_of(w, page, table.domain)
}

// The walk of a page.
#[tactic(auto, unfolding(model::specs::step::Walk::walk_page))]
pub fn walk(m: &[u8], tables: Tables, page: usize) -> Outcome
    ensures { Tells outcome_number (walk_page m.now tables page) result }
{
    match level_one(m, tables, page)? {
        FirstLevel::Section(e) => Ok(e),
        FirstLevel::Table(table) => level_two(m, table, page),
    }
}

// The track word of an entry.
pub fn entry_word(e: Entry) -> u32
    ensures { result ≡ entry_word e }
{
    e.frame % 1048576 * 4096
        + e.ap % 8 * 512
        + e.section % 2 * 256
        + e.global % 2 * 128
        + e.xn % 2 * 64
        + e.domain % 16 * 4
        + 2
}

// What a walk finds, as a number: an entry's track word, or 0x100000000 plus a fault.
fn outcome_number(o: Outcome) -> u64
    ensures { result ≡ outcome_number o }
{
    match o {
        Ok(e) => entry_word(e) as u64,
        Err(f) => 0x100000000 + fault_number(f) as u64,
    }
}

// A refusal as such a number.
fn refused(r: Refusal) -> u64
    ensures { result ≡ 0x200000000 + refusal_number r }
{
    0x200000000 + r as u64
}

// The walk of one address: an entry's track word, 0x100000000 plus a fault, or 0x200000000 plus a refusal.
#[tactic(auto, unfolding(model::specs::step::WalkAnswer::walk_answer))]
pub fn walk_image(image: &[u8], root: u32, address: u32) -> u64
    ensures { result ≡ walk_answer image.now root address }
{
    if !memory_fits(image.len()) {
        return refused(Refusal::WrongLengths);
    }
    if !root_fits(OLD_SPLIT, root) {
        return refused(Refusal::WrongRoot);
    }
    if !in_window(OLD_WINDOW, address) {
        return refused(Refusal::WrongAddress);
    }
    outcome_number(walk(image, Tables { root }, address as usize / 4096)) // page_size
}
