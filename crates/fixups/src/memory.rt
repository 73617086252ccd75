// Whether an instruction touches memory: what its exceptions ask.
ghost use Rattle.std.specs.Prelude.{◌≡◌, ◌&&◌, ltb};
ghost use Rattle.laws.specs.Tests.{any};
ghost use Rattle.record.specs.Records.{spec_at};
ghost use Rattle.definition.specs.Tables.{shape_of};
ghost use Rattle.definition.specs.Behaviors.{is_memory, operands_of, may_fault};

use operand::is_memory;
use record::Record;

// Operand i is below the count, and memory.
fn memory_at(x: Record, i: u8) -> bool
    ensures { result ≡ ltb i x.count && is_memory (shape_of (spec_at x i)) }
{
    i < x.count && is_memory(x.spec(i))
}

fn names_memory(x: Record) -> bool
    ensures { result ≡ any (λ o. is_memory o.shape) (operands_of x) }
{
    memory_at(x, 0) | memory_at(x, 1) | memory_at(x, 2) | memory_at(x, 3)
}

// Complex, or some implicit or explicit operand is memory, whatever its access.
#[tactic(auto, using(crate::proofs::Faults::fault_complex, crate::proofs::Faults::fault_listed, crate::proofs::Faults::fault_named))]
pub fn may_fault(x: Record) -> bool
    ensures { result ≡ may_fault x }
{
    crate::is_complex(x) || implicit::lists_memory(x.digest.extra) || names_memory(x)
}
