// The base digests of everyday integer code, for a front end that knows opcodes and no digests.
#![tactic(auto)]

ghost use Rattle.std.specs.Prelude.{◌≡◌};
ghost use Rattle.digest.specs.Digests.{digest_in};
ghost use Rattle.everyday.specs.Rows.{everyday_digest, is_everyday};
ghost use Rattle.everyday.specs.Codes.{code_at};

use digest::BehaviorDigest;

// The digest of an opcode as the number that its four bytes are: the list, the accesses of the operands, the behavior. 0 where the
// opcode has none.
// Stays: opcodes are numbers of document 01, most of them without a name here; a table in code is a match (docs/DECISIONS.md).
#[tactic(auto, unfolding(crate::specs::Codes::code_at, crate::specs::Rows::everyday_digest))]
fn code_of(opcode: u16) -> u32
    ensures { result ≡ code_at opcode }
{
    match opcode {
        // MUL, LEA
        1 => 0x0000_0118,
        28 => 0x0000_0600,
        // MOV, MOVZX, MOVSX
        100 => 0x0000_0600,
        101 => 0x0000_0600,
        102 => 0x0000_0600,
        // ADD, SUB, AND, OR, XOR
        103 => 0x0000_0708,
        104 => 0x0000_0708,
        105 => 0x0000_0708,
        106 => 0x0000_0708,
        107 => 0x0000_0708,
        // ADC, SBB
        108 => 0x0000_070C,
        109 => 0x0000_070C,
        // CMP, TEST
        110 => 0x0000_0508,
        111 => 0x0000_0508,
        // INC, DEC, NEG
        112 => 0x0000_0308,
        113 => 0x0000_0308,
        114 => 0x0000_0308,
        // NOT, XCHG
        115 => 0x0000_0300,
        116 => 0x0000_0F00,
        // PUSH, POP
        117 => 0x001A_0100,
        118 => 0x001B_0200,
        _ => 0,
    }
}

// The base digest of an opcode, empty where it has none.
#[tactic(auto, using(crate::proofs::Laws::digest_held), unfolding(crate::specs::Codes::code_at))]
pub fn everyday_digest(opcode: u16) -> BehaviorDigest
    ensures { result ≡ digest_in (everyday_digest opcode) }
{
    let code = code_of(opcode);
    BehaviorDigest {
        behavior: (code % 256) as u8,
        operands: (code / 256 % 256) as u8,
        extra: (code / 65536) as u16,
    }
}

#[tactic(auto, using(crate::proofs::Laws::there_held))]
pub fn is_everyday(opcode: u16) -> bool
    ensures { result ≡ is_everyday opcode }
{
    code_of(opcode) != 0
}
