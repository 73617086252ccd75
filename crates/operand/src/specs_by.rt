// What a spec stands for, by its number.
// Stays: specs are numbers of document 01, as the record's bytes have them; this crate is the place that knows them.
ghost use Rattle.std.specs.Prelude.{◌≡◌};
ghost use Rattle.laws.specs.Tests.{is_in};
ghost use Rattle.definition.specs.Behaviors.{is_memory};
ghost use Rattle.definition.specs.Tables.{shape_of, string_specs};
ghost use Rattle.operand.specs.Bases.{takes_base};

// Memory, whatever its address is made of.
#[tactic(auto, using(crate::proofs::Shapes::memory_in, crate::proofs::Shapes::memory_below, crate::proofs::Shapes::memory_past))]
pub fn is_memory(spec: u8) -> bool
    ensures { result ≡ is_memory (shape_of spec) }
{
    matches!(spec, 18..=35)
}

// The specs of memory, but for 20 and 22, the destination of a string instruction.
#[tactic(auto, using(crate::proofs::Shapes::based))]
pub fn takes_base(spec: u8) -> bool
    ensures { result ≡ takes_base spec }
{
    is_memory(spec) & (spec != 20) & (spec != 22)
}

// A spec whose register a string list may log.
#[tactic(auto, unfolding(laws::specs::Tests::any, laws::specs::Tests::is_in))]
pub fn is_string(spec: u8) -> bool
    ensures { result ≡ is_in spec string_specs }
{
    matches!(spec, 18 | 20..=23)
}
