// Descriptors: what a word of a level-one or a level-two table says of a page.
#![tactic(auto)]

ghost use Rattle.std.specs.Prelude.{◌≡◌};
ghost use Rattle.model.specs.Numbers.{first_fault};
ghost use Rattle.model.specs.Telling.{Tells};
ghost use Rattle.model.specs.step.Walk.{first_domain, section_entry, large_entry, small_entry, first_of, second_of};
ghost use Rattle.model.specs.step.WalkAnswer.{outcome_number};

use model::{Entry, Fault, FirstLevel, FirstOutcome, Outcome, Pointer};

// The domain of a level-one word.
fn domain_of(w: u32) -> u32
    ensures { result ≡ first_domain w }
{
    w / 32 % 16
}

// The entry of a section's page.
pub fn section_entry(w: u32, page: usize) -> Entry
    ensures { result ≡ section_entry w page }
{
    Entry {
        frame: w / 1048576 % 4096 * 256 + (page % 256) as u32,
        ap: w / 32768 % 2 * 4 + w / 1024 % 4,
        section: 1,
        global: 1 - w / 131072 % 2,
        xn: w / 16 % 2,
        domain: domain_of(w),
    }
}

// The entry of a large page's page, in a table of this domain.
pub fn large_entry(w: u32, page: usize, domain: u32) -> Entry
    ensures { result ≡ large_entry w page domain }
{
    Entry {
        frame: w / 65536 % 65536 * 16 + (page % 16) as u32,
        ap: w / 512 % 2 * 4 + w / 16 % 4,
        section: 0,
        global: 1 - w / 2048 % 2,
        xn: w / 32768 % 2,
        domain,
    }
}

// The entry of a small page, in a table of this domain.
pub fn small_entry(w: u32, domain: u32) -> Entry
    ensures { result ≡ small_entry w domain }
{
    Entry {
        frame: w / 4096 % 1048576,
        ap: w / 512 % 2 * 4 + w / 16 % 4,
        section: 0,
        global: 1 - w / 2048 % 2,
        xn: w % 2,
        domain,
    }
}

// What a level-one word says of a page.
#[tactic(auto, unfolding(model::specs::step::Walk::first_of))]
pub fn first_of(w: u32, page: usize) -> FirstOutcome
    ensures { Tells first_fault (first_of w page) result }
{
    let super_bit = w / 262144 % 2;
    match (w % 4, super_bit) {
        (1, _) => Ok(FirstLevel::Table(Pointer {
            base: w / 1024 % 4194304 * 1024,
            domain: domain_of(w),
        })),
        (2, 0) => Ok(FirstLevel::Section(section_entry(w, page))),
        _ => Err(Fault::FirstUnmapped),
    }
}

// What a level-two word says of a page, in a table of this domain.
#[tactic(auto, unfolding(model::specs::step::Walk::second_of))]
pub fn second_of(w: u32, page: usize, domain: u32) -> Outcome
    ensures { Tells outcome_number (second_of w page domain) result }
{
    match w % 4 {
        0 => Err(Fault::SecondUnmapped),
        1 => Ok(large_entry(w, page, domain)),
        _ => Ok(small_entry(w, domain)),
    }
}
