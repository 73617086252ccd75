// A record's fields, where they stand in its lent bytes.
// Stays: a function for each field that a writer reads in the arm that needs it (docs/DECISIONS.md): they differ in place and width.
ghost use Rattle.std.specs.Prelude.{◌≡◌, ◌≤◌, ◌%◌, length};
ghost use Rattle.record.specs.Records.{everyday_bytes, record_of, spec_at, reg_at, address_size};

use crate::RECORD_BYTES;
use registers::RegSpec;

#[tactic(auto, unfolding(crate::specs::Records::record_of))]
pub fn opcode_in(b: &[u8]) -> u16
    requires { everyday_bytes ≤ length b.now }
    ensures { result ≡ (record_of b.now).opcode }
{
    laws::u16_at(b, 1)
}

#[tactic(auto, unfolding(crate::specs::Records::record_of))]
pub fn count_in(b: &[u8]) -> u8
    requires { everyday_bytes ≤ length b.now }
    ensures { result ≡ (record_of b.now).count }
{
    b[3]
}

#[tactic(auto, using(crate::proofs::Laws::spec_there))]
pub fn spec_in(b: &[u8], i: usize) -> u8
    requires { (everyday_bytes ≤ length b.now) × (i ≤ 3) }
    ensures { result ≡ spec_at (record_of b.now) i }
{
    b[4 + i]
}

#[tactic(auto, using(crate::proofs::Laws::reg_there))]
pub fn reg_in(b: &[u8], i: usize) -> RegSpec
    requires { (everyday_bytes ≤ length b.now) × (i ≤ 3) }
    ensures { result ≡ reg_at (record_of b.now) i }
{
    RegSpec {
        bank: b[8 + 2 * i],
        number: b[9 + 2 * i],
    }
}

#[tactic(auto, unfolding(crate::specs::Records::record_of))]
pub fn size_in(b: &[u8]) -> u8
    requires { everyday_bytes ≤ length b.now }
    ensures { result ≡ (record_of b.now).size }
{
    b[16]
}

#[tactic(auto, unfolding(crate::specs::Records::record_of))]
pub fn disp_in(b: &[u8]) -> u64
    requires { everyday_bytes ≤ length b.now }
    ensures { result ≡ (record_of b.now).disp }
{
    laws::u64_at(b, 18)
}

// The low byte of `imm`.
#[tactic(auto, using(crate::proofs::Laws::low_there))]
pub fn low_imm_in(b: &[u8]) -> u8
    requires { everyday_bytes ≤ length b.now }
    ensures { result ≡ (record_of b.now).imm % 256 }
{
    b[26]
}

#[tactic(auto, unfolding(crate::specs::Records::record_of))]
pub fn address_size_in(b: &[u8]) -> bool
    requires { everyday_bytes ≤ length b.now }
    ensures { result ≡ address_size (record_of b.now) }
{
    laws::is_set(b[34] as u32, 3)
}

#[tactic(auto, unfolding(crate::specs::Records::record_of))]
pub fn mask_in(b: &[u8]) -> u8
    requires { everyday_bytes ≤ length b.now }
    ensures { result ≡ (record_of b.now).mask }
{
    b[35]
}

// None in a kind that has no byte for it.
#[tactic(auto, using(crate::proofs::Laws::segment_there, crate::proofs::Laws::no_segment))]
pub fn segment_in(b: &[u8]) -> u8
    ensures { result ≡ (record_of b.now).segment }
{
    if RECORD_BYTES < b.len() {
        b[RECORD_BYTES]
    } else {
        0
    }
}
