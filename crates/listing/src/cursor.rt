// The walk along a listing: the flags, the implicit list, the explicit operands.
ghost use Rattle.std.specs.Prelude.{◌≡◌, Some, false, ◌+◌, ◌<◌};
ghost use Rattle.definition.specs.Listings.{way_access, explicit_at};
ghost use Rattle.definition.specs.declared.Item.TheVariants.{Implicit};
ghost use Rattle.listing.specs.Cursors.{place, explicit_next, implicit_next, flags_next, next_of};

use crate::AccessIter;
use access::Access;
use definition::Item;
use implicit::{Entry, ImplicitOperand, Way};
use record::Record;
use registers::names::RDI;

impl AccessIter {
    pub fn new() -> AccessIter
        ensures { result ≡ place false 0 }
    {
        AccessIter {
            explicit: false,
            next: 0,
        }
    }

    // The item at a place and the place behind it, or none where nothing is left. The record is one after fix-ups.
    #[tactic(auto, using(crate::proofs::Walking::at_explicit, crate::proofs::Walking::at_flags, crate::proofs::Walking::at_implicit))]
    pub fn next(self, x: Record) -> Option<(Item, AccessIter)>
        ensures { result ≡ next_of x self }
    {
        let at = self.next;
        if self.explicit {
            return explicit_next(x, at);
        }
        if at == 0 {
            return flags_next(x);
        }
        implicit_next(x, at - 1)
    }
}

// The flags, if they are accessed at all.
#[tactic(auto, using(crate::proofs::Walking::flags_found, crate::proofs::Walking::flags_none))]
fn flags_next(x: Record) -> Option<(Item, AccessIter)>
    ensures { result ≡ flags_next x }
{
    let digest = x.digest;
    let access = digest.flags_access();
    if access == Access::None {
        return implicit_next(x, 0);
    }
    Some((
        Item::Flags(access),
        AccessIter {
            explicit: false,
            next: 1,
        },
    ))
}

// Entry i of the implicit list, or past its end the first explicit operand. A string slot lists as memory at rdi, whatever its own register.
// Stays: no switch on steps but a match on the cases of an enum, each with what it holds.
#[tactic(auto, using(crate::proofs::Walking::entry_below, crate::proofs::Walking::entry_over))]
fn implicit_next(x: Record, i: u8) -> Option<(Item, AccessIter)>
    ensures { result ≡ implicit_next x i }
{
    match implicit::implicit_entry(x.digest.extra, i) {
        Some(Entry::Operand(o, way)) => implicit_found(o, way, i),
        Some(Entry::Slot(_, way)) => implicit_found(ImplicitOperand::MemDeref(RDI), way, i),
        None => explicit_next(x, 0),
    }
}

#[tactic(auto, using(crate::proofs::Walking::by_way))]
fn implicit_found(o: ImplicitOperand, way: Way, i: u8) -> Option<(Item, AccessIter)>
    requires { i < 4 }
    ensures { result ≡ Some (Implicit o (way_access way), place false (i + 2)) }
{
    Some((
        Item::Implicit(o, Access::from(way)),
        AccessIter {
            explicit: false,
            next: i + 2,
        },
    ))
}

// Explicit operand i, whatever its access.
#[tactic(auto, using(crate::proofs::Walking::operand_here, crate::proofs::Walking::operand_none))]
fn explicit_next(x: Record, i: u8) -> Option<(Item, AccessIter)>
    ensures { result ≡ explicit_next x i }
{
    if x.count <= i || 4 <= i {
        return None;
    }
    Some((
        explicit_item(x, i),
        AccessIter {
            explicit: true,
            next: i + 1,
        },
    ))
}

#[tactic(auto, unfolding(definition::specs::Listings::explicit_at))]
fn explicit_item(x: Record, i: u8) -> Item
    ensures { result ≡ explicit_at x i }
{
    let digest = x.digest;
    Item::Explicit(i, x.spec(i), digest.operand_access(i))
}
