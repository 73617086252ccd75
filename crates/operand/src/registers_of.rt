// The registers that an operand stands for.
ghost use Rattle.std.specs.Prelude.{◌≡◌, ◌≤◌, length};
ghost use Rattle.record.specs.Records.{everyday_bytes, record_of};
ghost use Rattle.definition.specs.Steps.{widened, fourth_of};
ghost use Rattle.definition.specs.Addresses.{segment_register};

use registers::RegSpec;
use registers::names::{FS, GS};

// Reg4: the bank of `regs[3]` and the low byte of `imm`.
pub fn fourth_of(b: &[u8]) -> RegSpec
    requires { everyday_bytes ≤ length b.now }
    ensures { result ≡ fourth_of (record_of b.now) }
{
    RegSpec {
        bank: record::reg_in(b, 3).bank,
        number: record::low_imm_in(b),
    }
}

// A write to bank D is logged as one to bank Q: it zero-extends.
#[tactic(auto, unfolding(definition::specs::Steps::widened))]
pub fn apply_x86_zext(y: RegSpec) -> RegSpec
    ensures { result ≡ widened y }
{
    if y.bank == 1 {
        RegSpec {
            bank: 0,
            number: y.number,
        }
    } else {
        y
    }
}

// The base of fs for segment 1, else that of gs.
// Stays: a segment is a number of document 01, and any number has an answer, as the definition of this name has it.
#[tactic(auto, unfolding(definition::specs::Addresses::segment_register))]
pub fn segment_register(segment: u8) -> RegSpec
    ensures { result ≡ segment_register segment }
{
    if segment == 1 { FS } else { GS }
}
