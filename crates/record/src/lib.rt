// A record of one instruction, from its bytes.
#![tactic(auto)]

ghost use Rattle.std.specs.Prelude.{◌≡◌, not, ◌+◌, ◌≤◌, ◌<◌, ◌∷◌, [], length, get_or, ltb};
ghost use Rattle.digest.specs.Digests.{digest_in};
ghost use Rattle.laws.specs.Refusals.{answered_by};
ghost use Rattle.laws.specs.Tests.{any};
ghost use Rattle.registers.specs.Banks.{is_register};
ghost use Rattle.record.specs.Records.{everyday_kind, everyday_bytes, record_length, RecordLong, record_digest, record_of, lacks_digest, outside, record_refusal, record_answer, spec_at, vex_w, address_size};
ghost use Rattle.record.specs.Halves.{plain_record, completed_record};

use digest::BehaviorDigest;
use laws::Refusal;
use registers::RegSpec;

mod fields; // fields.rt: its fields, where they stand in its lent bytes

pub use fields::{
    address_size_in, count_in, disp_in, low_imm_in, mask_in, opcode_in, reg_in, segment_in,
    size_in, spec_in,
};

// The kinds of records and their lengths: the second names a segment behind what the first has, the third has no digest.
// Stays: a kind is a byte of the format (docs/FORMAT.md), and any byte has an answer.
pub const RECORD_KIND: u8 = 0x10;

pub const SEGMENT_KIND: u8 = 0x11;

pub const EVERYDAY_KIND: u8 = 0x12;

pub const EVERYDAY_BYTES: usize = 36;

pub const RECORD_BYTES: usize = EVERYDAY_BYTES + 4;

pub const SEGMENT_BYTES: usize = RECORD_BYTES + 1;

// The fields of a record, in their order: `size` is document 01's `mem_size`.
// Stays: opcode, specs, banks and segment are document 01's numbers, `specs` stands beside `regs` in its order: a record has any of them.
#[derive(Clone, Copy)]
pub struct Record {
    pub opcode: u16,
    pub count: u8,
    pub specs: [u8; 4],
    pub regs: [RegSpec; 4],
    pub size: u8,
    pub scale: u8,
    pub disp: u64,
    pub imm: u64,
    pub prefixes: u8,
    pub mask: u8,
    pub digest: BehaviorDigest,
    pub segment: u8,
}

impl Record {
    // The record in its bytes, where they are not refused.
    pub fn from_bytes(b: &[u8]) -> Result<Record, Refusal>
        ensures { result ≡ record_answer b.now }
    {
        check(b)?;
        Ok(Record::parse(b))
    }

    #[tactic(auto, using(crate::proofs::Laws::halves))]
    pub fn parse(b: &[u8]) -> Record
        requires { RecordLong b.now }
        ensures { result ≡ record_of b.now }
    {
        Record::plain(b).completed(b)
    }

    // What every kind holds at the same places. It and `completed` are short enough to be inlined, where `parse` is not.
    // Stays: four specs and four registers, each named once; a loop would fill arrays of zeros first, and is no plainer.
    #[tactic(auto, unfolding(crate::specs::Halves::plain_record, crate::specs::Records::record_of))]
    pub fn plain(b: &[u8]) -> Record
        requires { RecordLong b.now }
        ensures { result ≡ plain_record b.now }
    {
        let specs = [spec_in(b, 0), spec_in(b, 1), spec_in(b, 2), spec_in(b, 3)];
        let regs = [reg_in(b, 0), reg_in(b, 1), reg_in(b, 2), reg_in(b, 3)];
        Record {
            opcode: opcode_in(b),
            count: count_in(b),
            specs,
            regs,
            size: size_in(b),
            scale: b[17],
            disp: disp_in(b),
            imm: laws::u64_at(b, 26),
            prefixes: b[34],
            mask: mask_in(b),
            digest: BehaviorDigest::empty(),
            segment: 0,
        }
    }

    // With what hangs on the kind: the digest and the segment.
    #[tactic(auto, unfolding(crate::specs::Halves::completed_record, crate::specs::Records::record_of))]
    pub fn completed(mut self, b: &[u8]) -> Record
        requires { RecordLong b.now }
        ensures { result ≡ completed_record self b.now }
    {
        self.digest = digest_in(b);
        self.segment = segment_in(b);
        self
    }

    // One of four numbers, by a test for each: an array that is asked at a place lies in memory.
    // Stays: for that reason; a visit asks for a spec in each turn of its loop.
    #[tactic(auto, using(crate::proofs::Laws::four_of_lem))]
    pub fn spec(self, i: u8) -> u8
        ensures { result ≡ spec_at self i }
    {
        one_of(
            i,
            self.specs[0],
            self.specs[1],
            self.specs[2],
            self.specs[3],
        )
    }

    pub fn vex_w(self) -> bool
        ensures { result ≡ vex_w self }
    {
        laws::is_set(self.prefixes as u32, 0)
    }

    pub fn address_size(self) -> bool
        ensures { result ≡ address_size self }
    {
        laws::is_set(self.prefixes as u32, 3)
    }
}

// The length of a record by its kind, 0 for no kind.
// Stays: a table in code is a match; 0 is no record's length, as `record_length` has it.
#[tactic(auto, unfolding(crate::specs::Records::record_length))]
pub fn length_of(kind: u8) -> usize
    ensures { result ≡ record_length kind }
{
    match kind {
        RECORD_KIND => RECORD_BYTES,
        SEGMENT_KIND => SEGMENT_BYTES,
        EVERYDAY_KIND => EVERYDAY_BYTES,
        _ => 0,
    }
}

// Whether bytes are a record: else they are refused, for the first test that fails.
#[tactic(auto, using(crate::proofs::Laws::refused_empty, crate::proofs::Laws::refused_length, crate::proofs::Laws::has_fields, crate::proofs::Laws::refused_fields, crate::proofs::Laws::by_digest, crate::proofs::Laws::malformed, crate::proofs::Laws::beyond, crate::proofs::Laws::undigested, crate::proofs::Laws::whole))]
pub fn check(b: &[u8]) -> Result<(), Refusal>
    ensures { result ≡ answered_by (record_refusal b.now) tt }
{
    if b.len() == 0 {
        return Err(Refusal::Malformed);
    }
    if b.len() != length_of(b[0]) {
        return Err(Refusal::Malformed);
    }
    if is_outside(b) {
        return Err(Refusal::Outside);
    }
    if lacks_digest(b) {
        return Err(Refusal::Unlisted);
    }
    Ok(())
}

fn one_of(i: u8, a: u8, b: u8, c: u8, d: u8) -> u8
    ensures { result ≡ get_or (a ∷ b ∷ c ∷ d ∷ []) i 0 }
{
    match i {
        0 => a,
        1 => b,
        2 => c,
        3 => d,
        _ => 0,
    }
}

// The digest that the bytes bring, or that of the opcode in the kind that brings none.
#[tactic(auto, using(crate::proofs::Laws::digest_listed, crate::proofs::Laws::digest_own))]
fn digest_in(b: &[u8]) -> BehaviorDigest
    requires { RecordLong b.now }
    ensures { result ≡ digest_in (record_digest b.now) }
{
    if b[0] == EVERYDAY_KIND {
        return everyday::everyday_digest(laws::u16_at(b, 1));
    }
    BehaviorDigest {
        behavior: b[36],
        operands: b[37],
        extra: laws::u16_at(b, 38),
    }
}

#[tactic(auto, using(crate::proofs::Laws::listed_lacks, crate::proofs::Laws::own_lacks))]
fn lacks_digest(b: &[u8]) -> bool
    requires { everyday_bytes ≤ length b.now }
    ensures { result ≡ lacks_digest b.now }
{
    b[0] == EVERYDAY_KIND && !everyday::is_everyday(laws::u16_at(b, 1))
}

// Whether some number of a record is outside its table.
// Stays: one test for each number: each has a bound of its own.
#[tactic(auto, unfolding(laws::specs::Tests::any, crate::specs::Records::outside, crate::specs::Records::record_of))]
fn is_outside(b: &[u8]) -> bool
    requires { RecordLong b.now }
    ensures { result ≡ outside (record_of b.now) }
{
    (4 < b[3])
        | has_bad_spec(b)
        | has_bad_reg(b)
        | (64 < b[16])
        | (15 < b[34])
        | (7 < b[35])
        | has_bad_list(b)
        | (2 < segment_in(b))
}

// A list that the bytes bring: those of the opcodes are all inside.
#[tactic(auto, using(crate::proofs::Laws::own_outside, crate::proofs::Laws::listed_within))]
fn has_bad_list(b: &[u8]) -> bool
    requires { RecordLong b.now }
    ensures { result ≡ ltb 28 (record_of b.now).digest.extra }
{
    b[0] != EVERYDAY_KIND && 28 < laws::u16_at(b, 38)
}

#[tactic(auto, unfolding(laws::specs::Tests::any, crate::specs::Records::record_of))]
fn has_bad_spec(b: &[u8]) -> bool
    requires { everyday_bytes ≤ length b.now }
    ensures { result ≡ any (λ s. ltb 35 s) (record_of b.now).specs }
{
    35 < b[4] || 35 < b[5] || 35 < b[6] || 35 < b[7]
}

#[tactic(auto, unfolding(laws::specs::Tests::any, crate::specs::Records::record_of))]
fn has_bad_reg(b: &[u8]) -> bool
    requires { everyday_bytes ≤ length b.now }
    ensures { result ≡ any (λ y. not (is_register y.bank y.number)) (record_of b.now).regs }
{
    is_bad(b[8], b[9]) || is_bad(b[10], b[11]) || is_bad(b[12], b[13]) || is_bad(b[14], b[15])
}

fn is_bad(bank: u8, number: u8) -> bool
    ensures { result ≡ not (is_register bank number) }
{
    !RegSpec::is_register(bank, number)
}
