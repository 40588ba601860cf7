// The list reader: the names line, then a line at a time. What is left of a list is a part of the caller's slice, and the next line
// is read from that part.
#![tactic(auto)]

ghost use Rattle.std.specs.Prelude.{◌≡◌, ◌<◌};
ghost use Rattle.text.specs.Split.{past};
ghost use Rattle.text.specs.Hex.{value_of};
ghost use Rattle.names.specs.Names.{newline};
ghost use Rattle.listing.specs.Line.{used, spare, op_of, judged, values_of, fields_of, line_of};
ghost use Rattle.listing.specs.Whole.{too_long, has_names, list_number, line_number};

use model::{Kind, Operation};
use names::name_of;
use text::{cut, read_value};

// Why a list is turned back, by the numbers of the rules.
#[derive(Clone, Copy)]
pub enum Reason {
    TooLong = 1,
    Names = 2,
    Shape = 3,
    Spelling = 4,
    Unknown = 5,
    Unused = 6,
}

// The number of a reason.
pub fn list_number(x: Reason) -> u32
    ensures { (result ≡ list_number x) × (result < 16) }
{
    x as u32
}

// How many of the fields a, b, c an operation uses.
pub fn used(k: Kind) -> u32
    ensures { result ≡ used k }
{
    match k {
        Kind::Read => 2,
        Kind::Write => 3,
        Kind::Root => 1,
        Kind::Asid => 1,
        Kind::Mode => 1,
        Kind::All => 0,
        Kind::Addr => 1,
        Kind::Ctx => 1,
        Kind::AddrCtx => 2,
        Kind::Fetch => 1,
        Kind::Domain => 1,
    }
}

// Whether field i, counted from 0, is one of the first n, or 0.
#[tactic(auto, unfolding(crate::specs::Line::spare))]
fn spare(n: u32, i: u32, x: u32) -> bool
    ensures { result ≡ spare n i x }
{
    i < n || x == 0
}

// An operation with its fields, if those that it does not use are 0.
#[tactic(auto, unfolding(crate::specs::Line::op_of, crate::specs::Line::zeros))]
fn make(k: Kind, a: u32, b: u32, c: u32) -> Result<Operation, Reason>
    ensures { result ≡ op_of k a b c }
{
    let n = used(k);
    if spare(n, 0, a) && spare(n, 1, b) && spare(n, 2, c) {
        Ok(Operation { kind: k, a, b, c })
    } else {
        Err(Reason::Unused)
    }
}

// The values of the fields a, b and c, if each of them is spelled right.
#[tactic(auto, unfolding(crate::specs::Line::values_of))]
fn all_values(a: &[u8], b: &[u8], c: &[u8]) -> Option<(u32, u32, u32)>
    ensures { result ≡ values_of (value_of a.now) (value_of b.now) (value_of c.now) }
{
    Some((read_value(a)?, read_value(b)?, read_value(c)?))
}

// An operation with its fields, if the values are spelled right and the name names one.
#[tactic(auto, unfolding(crate::specs::Line::judged))]
fn judge(n: Option<Kind>, v: Option<(u32, u32, u32)>) -> Result<Operation, Reason>
    ensures { result ≡ judged n v }
{
    let (a, b, c) = v.ok_or(Reason::Spelling)?;
    let k = n.ok_or(Reason::Unknown)?;
    make(k, a, b, c)
}

// The four fields of a line without its newline.
#[tactic(auto, unfolding(crate::specs::Line::fields_of, crate::specs::Line::field_a, crate::specs::Line::field_b, crate::specs::Line::field_c))]
fn fields(l: &[u8]) -> Result<Operation, Reason>
    ensures { result ≡ fields_of l.now }
{
    let (name, l) = cut(l, b',').ok_or(Reason::Shape)?;
    let (a, l) = cut(l, b',').ok_or(Reason::Shape)?;
    let (b, c) = cut(l, b',').ok_or(Reason::Shape)?;
    if text::has(c, b',') {
        return Err(Reason::Shape);
    }
    judge(name_of(name), all_values(a, b, c))
}

// Reads the first line of what is left of a list.
#[tactic(auto, unfolding(crate::specs::Line::line_of))]
pub fn read_line(list: &[u8]) -> Result<Operation, Reason>
    ensures { (result ≡ line_of list.now) × (line_number result ≡ line_number (line_of list.now)) }
{
    let (line, _) = cut(list, b'\n').ok_or(Reason::Shape)?;
    fields(line)
}

// What is left of a list after its first line.
pub fn rest(list: &[u8]) -> &[u8]
    ensures { result.now ≡ past newline list.now }
{
    text::past(list, b'\n')
}

// Whether a list has more bytes than a list may have.
#[tactic(auto, unfolding(crate::specs::Whole::too_long))]
pub fn too_long(list: &[u8]) -> bool
    ensures { result ≡ too_long list.now }
{
    65536 < list.len() // list_limit
}

// Whether a list begins with the names line.
#[tactic(auto, unfolding(crate::specs::Whole::has_names))]
pub fn has_names(list: &[u8]) -> bool
    ensures { result ≡ has_names list.now }
{
    cut(list, b'\n').is_some_and(|(line, _)| text::same(line, b"op,a,b,c"))
}
