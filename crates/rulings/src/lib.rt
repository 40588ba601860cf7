// What is said of an access, looked up in a constant table of the 384 answers. The table is the sheet of permissions, which the program
// `rights` writes.
#![tactic(auto)]

ghost use Rattle.std.specs.Prelude.{◌≡◌};
ghost use Rattle.model.specs.Telling.{Tells};
ghost use Rattle.model.specs.step.Rights.{ruling_of};
ghost use Rattle.permissions.specs.Sheet.{answer, numbered, answer_at};
ghost use Rattle.permissions.specs.Places.{place_of};
ghost use Rattle.rulings.specs.Ranges.{within, flag, told};

use model::{Purpose, Ruling};
use table::TABLE;

mod table;

// What is said at a place of the table; none where it has no such place.
pub fn answer_at(place: usize) -> Option<Ruling>
    ensures { numbered result ≡ answer_at place }
{
    let number = TABLE.get(place)?;
    Some(ruling_of(*number))
}

// x where it is below n, else 0.
fn within(x: u32, n: u32) -> u32
    ensures { result ≡ within n x }
{
    if x < n { x } else { 0 }
}

// 0 for 0, else 1.
fn flag(x: u32) -> u32
    ensures { result ≡ flag x }
{
    u32::from(x != 0)
}

// Where an answer stands: ordered by AP, mode, kind, field and XN, the last running fastest. AP from 8 on permits as little as AP 0, a mode
// other than 0 is the user's, a field from 4 on is closed as 0 is, and XN is set unless it is 0.
#[tactic(auto, unfolding(permissions::specs::Places::place_of))]
fn place(ap: u32, mode: u32, purpose: Purpose, field: u32, xn: u32) -> usize
    ensures { result ≡ place_of (within 8 ap) (flag mode) purpose (within 4 field) (flag xn) }
{
    let ap = within(ap, 8);
    let mode = flag(mode);
    let field = within(field, 4);
    let xn = flag(xn);
    let at = (((ap * 2 + mode) * 3 + purpose as u32) * 4 + field) * 2 + xn;
    at as usize
}

// The answer of this number. The table holds numbers and no rulings: `./rights --source` prints it so, and the gate compares.
fn ruling_of(number: u8) -> Ruling
    ensures { result ≡ told number }
{
    match number {
        0 => Ruling::Allowed,
        1 => Ruling::PermissionDenied,
        _ => Ruling::DomainDenied,
    }
}

// What is said of an access, by the field of the entry's domain: 3 allows everything, 1 what is permitted, and any other field nothing. It
// answers for all numbers: `place` brings each into its range, so it is never past the table.
pub fn rule(ap: u32, mode: u32, purpose: Purpose, field: u32, xn: u32) -> Ruling
    ensures { Tells answer (ruling_of ap mode purpose field xn) result }
{
    let at = place(ap, mode, purpose, field, xn);
    answer_at(at).unwrap_or(Ruling::DomainDenied)
}
