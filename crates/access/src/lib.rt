// What an access comes to: a physical address, a fault, or that its page is stale.
#![tactic(auto)]

ghost use Rattle.std.specs.Prelude.{◌≡◌, cond, eqb};
ghost use Rattle.model.specs.Numbers.{fault_number, access_result};
ghost use Rattle.model.specs.Telling.{Tells};
ghost use Rattle.model.specs.step.Memory.{bytes_of};
ghost use Rattle.model.specs.step.Rights.{field_at};
ghost use Rattle.model.specs.step.Machine.{size_of, permission_fault_of, domain_fault_of, reached, granted, decided, access_at};

use model::{Access, Entry, Fault, OLD_WINDOW, Outcome, Purpose, Registers, Ruling, Size};

// The field of a domain in a domain register.
#[tactic(auto, using(crate::proofs::Laws::field_shifted, crate::proofs::Laws::field_beyond))]
pub fn field_of(domains: u32, domain: u32) -> u32
    ensures { result ≡ field_at domains domain }
{
    if domain < 16 {
        (domains >> (2 * domain)) & 3
    } else {
        0
    }
}

// The size that a field names, and four bytes where it names none.
pub fn size_of(b: u32) -> Size
    ensures { Tells bytes_of (size_of b) result }
{
    match b {
        1 => Size::One,
        2 => Size::Two,
        _ => Size::Four,
    }
}

// The first fault where a section gave this entry, the second where a page did.
fn by_level(e: Entry, section: Fault, page: Fault) -> Fault
    ensures { result ≡ cond (eqb e.section 1) section page }
{
    if e.section == 1 { section } else { page }
}

// The permission fault of an access through this entry.
#[tactic(auto, unfolding(model::specs::step::Machine::permission_fault_of))]
pub fn permission_fault(e: Entry) -> Fault
    ensures { Tells fault_number (permission_fault_of e) result }
{
    by_level(e, Fault::SectionPermission, Fault::PagePermission)
}

// The domain fault of an access through this entry.
#[tactic(auto, unfolding(model::specs::step::Machine::domain_fault_of))]
pub fn domain_fault(e: Entry) -> Fault
    ensures { Tells fault_number (domain_fault_of e) result }
{
    by_level(e, Fault::SectionDomain, Fault::PageDomain)
}

// An access through an entry, of which this is said: a fault, or the bytes.
pub fn reach(x: Ruling, e: Entry, size: Size, a: u32, m: &[u8]) -> Access
    ensures { Tells access_result (reached x e size a m.now) result }
{
    let at = e.frame as usize * 4096 + a as usize % 4096; // page_size
    match x {
        Ruling::DomainDenied => Access::Fails(domain_fault(e)),
        Ruling::PermissionDenied => Access::Fails(permission_fault(e)),
        Ruling::Allowed if memory::inside(m, at, size) => Access::Physical(at),
        Ruling::Allowed => Access::Fails(Fault::AccessOutside),
    }
}

// An access to a page with this outcome: domain and permission, then the bytes.
pub fn grant(o: Outcome, r: Registers, purpose: Purpose, size: Size, a: u32, m: &[u8]) -> Access
    ensures { Tells access_result (granted o r purpose size a m.now) result }
{
    match o {
        Err(f) => Access::Fails(f),
        Ok(e) => {
            let field = field_of(r.domains, e.domain);
            let said = rulings::rule(e.ap, r.mode, purpose, field, e.xn);
            reach(said, e, size, a, m)
        }
    }
}

// An access to a page with this outcome, which is stale or not.
#[tactic(auto, unfolding(model::specs::step::Machine::decided))]
pub fn decide(
    o: Outcome,
    stale: bool,
    r: Registers,
    purpose: Purpose,
    size: Size,
    a: u32,
    m: &[u8],
) -> Access
    ensures { Tells access_result (decided o stale r purpose size a m.now) result }
{
    if a as usize % memory::bytes(size) != 0 {
        Access::Fails(Fault::Alignment)
    } else if stale {
        Access::Stale
    } else {
        grant(o, r, purpose, size, a, m)
    }
}

// What an access comes to.
#[tactic(auto, unfolding(model::specs::step::Machine::access_at))]
pub fn access_at(r: Registers, m: &[u8], t: &[u32], purpose: Purpose, size: Size, a: u32) -> Access
    ensures { Tells access_result (access_at r m.now t.now purpose size a) result }
{
    let page = a as usize / 4096; // page_size
    let o = walk::walk(m, r.tables(), page);
    let stale = track::is_stale_page(OLD_WINDOW, t, r.context, page, o);
    decide(o, stale, r, purpose, size, a, m)
}
