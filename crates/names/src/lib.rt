// The names of the operations: one function compares with them, one gives them, and what puts a name writes what that one gives. All are
// tied to one definition.
#![tactic(auto)]

ghost use Rattle.std.specs.Prelude.{◌≡◌};
ghost use Rattle.text.specs.Put.{wrote, place_after};
ghost use Rattle.names.specs.Names.{name, named_of};

use model::Kind;
use text::Writer;

// The operation that a name names.
#[tactic(auto, using(crate::proofs::NameLaws::named_short, crate::proofs::NameLaws::named_3, crate::proofs::NameLaws::named_4, crate::proofs::NameLaws::named_5, crate::proofs::NameLaws::named_6, crate::proofs::NameLaws::named_7, crate::proofs::NameLaws::named_long))]
pub fn name_of(s: &[u8]) -> Option<Kind>
    ensures { result ≡ named_of s.now }
{
    match s {
        b"read" => Some(Kind::Read),
        b"write" => Some(Kind::Write),
        b"root" => Some(Kind::Root),
        b"asid" => Some(Kind::Asid),
        b"mode" => Some(Kind::Mode),
        b"all" => Some(Kind::All),
        b"addr" => Some(Kind::Addr),
        b"ctx" => Some(Kind::Ctx),
        b"addrctx" => Some(Kind::AddrCtx),
        b"fetch" => Some(Kind::Fetch),
        b"domain" => Some(Kind::Domain),
        _ => None,
    }
}

// The name of an operation.
pub fn text_of(k: Kind) -> &'static [u8]
    ensures { result.now ≡ name k }
{
    match k {
        Kind::Read => b"read",
        Kind::Write => b"write",
        Kind::Root => b"root",
        Kind::Asid => b"asid",
        Kind::Mode => b"mode",
        Kind::All => b"all",
        Kind::Addr => b"addr",
        Kind::Ctx => b"ctx",
        Kind::AddrCtx => b"addrctx",
        Kind::Fetch => b"fetch",
        Kind::Domain => b"domain",
    }
}

// Puts the name of an operation, where 7 bytes are left for it.
#[tactic(auto, unfolding(text::specs::Put::wrote, text::specs::Put::place_after), using(text::proofs::PutLaws::put_fits, crate::proofs::NameLaws::name_most))]
pub fn put_name(w: &mut Writer, k: Kind)
    ensures same_buffer { w.new.out.ghost_name ≡ w.old.out.ghost_name }
    ensures place { w.new.at ≡ place_after 7 w.old.out.now w.old.at (name k) }
    ensures holds { w.new.out.now ≡ wrote 7 w.old.out.now w.old.at (name k) }
{
    if w.has_room(7) {
        w.put(text_of(k));
    }
}
