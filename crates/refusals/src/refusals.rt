// Refusals 5 and 6, of a record after fix-ups.
ghost use Rattle.std.specs.Prelude.{◌≡◌, not, ◌&&◌, ◌||◌, ◌∷◌, [], eqb};
ghost use Rattle.laws.specs.Tests.{is_in};
ghost use Rattle.definition.specs.Tables.{string_specs};
ghost use Rattle.definition.specs.Refusals.{nameless, sizeless};

use crate::operands::{accesses_memory, accesses_unnamed};
use operand::is_string;
use record::Record;

// List 24 names slot 0, and list 25 slots 0 and 1.
// Stays: lists, here and below, and specs are numbers of document 01, as a record and its digest hold them.
#[tactic(auto, unfolding(laws::specs::Tests::any, laws::specs::Tests::is_in))]
fn lacks_slot(list: u16, first: u8, second: u8) -> bool
    ensures { result ≡ (is_in list (24 ∷ 25 ∷ []) && not (is_in first string_specs)) || (eqb list 25 && not (is_in second string_specs)) }
{
    match list {
        24 => !is_string(first),
        25 => !is_string(first) | !is_string(second),
        _ => false,
    }
}

// The implicit lists that touch memory by `mem_size`.
#[tactic(auto, unfolding(laws::specs::Tests::any, laws::specs::Tests::is_in))]
fn needs_size(list: u16) -> bool
    ensures { result ≡ is_in list (15 ∷ 16 ∷ 26 ∷ 27 ∷ 28 ∷ []) }
{
    matches!(list, 15 | 16 | 26 | 27 | 28)
}

#[tactic(auto, using(crate::proofs::Shapes::names_all))]
pub fn is_nameless(x: Record) -> bool
    ensures { result ≡ nameless x }
{
    accesses_unnamed(x) | lacks_slot(x.digest.extra, x.specs[0], x.specs[1])
}

// LEA has no rule of its own here.
#[tactic(auto, using(crate::proofs::Shapes::has_size, crate::proofs::Shapes::size_by_access, crate::proofs::Shapes::size_by_list))]
pub fn is_sizeless(x: Record) -> bool
    ensures { result ≡ sizeless x }
{
    x.size == 0 && (accesses_memory(x) || needs_size(x.digest.extra))
}
