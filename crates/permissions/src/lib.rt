// What access permissions and domains allow, computed from the rules, and the sheet of all 384 answers as text.
#![tactic(auto)]

ghost use Rattle.std.specs.Prelude.{◌≡◌};
ghost use Rattle.model.specs.Telling.{Tells};
ghost use Rattle.model.specs.step.Rights.{kernel_rights, user_rights, rights_of, permitted, ruling_of};
ghost use Rattle.permissions.specs.Sheet.{answer, numbered, answer_at, sheet};
ghost use Rattle.permissions.specs.Places.{kind_at};

use model::{Purpose, Rights, Ruling};

// What the kernel may do where an entry has these permissions.
#[tactic(auto, unfolding(model::specs::step::Rights::kernel_rights))]
pub fn kernel_rights(ap: u32) -> Rights
    ensures { result ≡ kernel_rights ap }
{
    match ap {
        1..=3 => Rights::Writing,
        5..=7 => Rights::Reading,
        _ => Rights::Nothing,
    }
}

// What the user may do.
#[tactic(auto, unfolding(model::specs::step::Rights::user_rights))]
pub fn user_rights(ap: u32) -> Rights
    ensures { result ≡ user_rights ap }
{
    match ap {
        3 => Rights::Writing,
        2 | 6..=7 => Rights::Reading,
        _ => Rights::Nothing,
    }
}

// What a mode may do.
#[tactic(auto, unfolding(model::specs::step::Rights::rights_of))]
pub fn rights_of(ap: u32, mode: u32) -> Rights
    ensures { result ≡ rights_of ap mode }
{
    if mode == 0 {
        kernel_rights(ap)
    } else {
        user_rights(ap)
    }
}

// Whether an access for this purpose is permitted in a mode, by an entry's access permissions and its XN bit.
#[tactic(auto, unfolding(model::specs::step::Rights::permitted))]
pub fn permitted(ap: u32, mode: u32, purpose: Purpose, xn: u32) -> bool
    ensures { result ≡ permitted ap mode purpose xn }
{
    let rights = rights_of(ap, mode);
    match purpose {
        Purpose::ToRead => Rights::Reading <= rights,
        Purpose::ToWrite => Rights::Writing <= rights,
        Purpose::ToFetch => Rights::Reading <= rights && xn == 0,
    }
}

// What is said of an access, by the field of the entry's domain: 3 allows everything, 1 what is permitted, and any other field nothing.
#[tactic(auto, using(model::proofs::Tellings::tells), unfolding(model::specs::step::Rights::ruling_of))]
pub fn by_rules(ap: u32, mode: u32, purpose: Purpose, field: u32, xn: u32) -> Ruling
    ensures { Tells answer (ruling_of ap mode purpose field xn) result }
{
    match field {
        3 => Ruling::Allowed,
        1 if permitted(ap, mode, purpose, xn) => Ruling::Allowed,
        1 => Ruling::PermissionDenied,
        _ => Ruling::DomainDenied,
    }
}

// How many answers there are: 8 × 2 × 3 × 4 × 2.
const PLACES: usize = 384;

// The number of an answer.
pub fn number_of(x: Ruling) -> u8
    ensures { result ≡ answer x }
{
    x as u8
}

// The kind of access that stands at a place among the kinds, read, write and fetch.
fn kind_at(place: usize) -> Purpose
    ensures { result ≡ kind_at place }
{
    match place {
        0 => Purpose::ToRead,
        1 => Purpose::ToWrite,
        _ => Purpose::ToFetch,
    }
}

// What is said at a place of the sheet, by the rules; none where there is no such place.
pub fn compute(place: usize) -> Option<Ruling>
    ensures { numbered result ≡ answer_at place }
{
    if PLACES <= place {
        return None;
    }
    let ap = (place / 48) as u32;
    let mode = (place / 24 % 2) as u32;
    let kind = kind_at(place / 8 % 3);
    let field = (place / 2 % 4) as u32;
    let xn = (place % 2) as u32;
    Some(by_rules(ap, mode, kind, field, xn))
}

// The sheet: the answers in their order, a line each.
pub fn sheet_text() -> [u8; 768]
    ensures { result ≡ sheet }
{
    let mut out = [0; 768];
    for i in 0..PLACES {
        if let Some(said) = compute(i) {
            out[2 * i] = b'0' + number_of(said);
            out[2 * i + 1] = b'\n';
        }
    }
    out
}
