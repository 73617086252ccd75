// What a record alone says of its instruction: the digest after fix-ups, whether it is complex, its privilege, its exceptions.
#![tactic(auto)]

ghost use Rattle.std.specs.Prelude.{◌≡◌};
ghost use Rattle.access.specs.Exceptions.{info_of};
ghost use Rattle.definition.specs.Behaviors.{digest_of, fixed_up, complex, may_protect, exceptions_of, digest_call, privilege_call, exceptions_call};

use access::{Exception, ExceptionInfo, PrivilegeLevel, then_set};
use digest::BehaviorDigest;
use laws::Refusal;
use record::Record;

mod memory;
mod rules;

// The digest after fix-ups, which happen only where nontrivial is set.
#[tactic(auto, using(crate::proofs::Narrow::with_fixups, crate::proofs::Narrow::without_fixups))]
pub fn digest_of(x: Record) -> BehaviorDigest
    ensures { result ≡ digest_of x }
{
    let d = x.digest;
    if d.is_nontrivial() {
        rules::fix_fields(
            x.opcode,
            x.count,
            x.specs[0],
            x.regs[1].bank,
            x.size,
            x.prefixes,
            d,
        )
    } else {
        d
    }
}

// The record with its digest after fix-ups. The test stands here too: most records need no fix-up, and no call.
// Stays: the test and the call of digest_of once more: through it a record by value would go through memory (docs/DECISIONS.md).
#[tactic(auto, using(crate::proofs::Narrow::with_fixups, crate::proofs::Narrow::without_fixups), unfolding(definition::specs::Behaviors::fixed_up))]
pub fn fixed_up(mut x: Record) -> Record
    ensures { result ≡ fixed_up x }
{
    let base = x.digest;
    if base.is_nontrivial() {
        let changed = rules::fix_fields(
            x.opcode,
            x.count,
            x.specs[0],
            x.regs[1].bank,
            x.size,
            x.prefixes,
            base,
        );
        x.digest = changed;
        return x;
    }
    x
}

// Whether a record, after fix-ups, is of an instruction that its operands do not describe.
#[tactic(auto, using(crate::proofs::Complex::without_bit, crate::proofs::Complex::with_bit_tests, crate::proofs::Complex::with_bit_below, crate::proofs::Complex::with_bit_above))]
pub fn is_complex(x: Record) -> bool
    ensures { result ≡ complex x }
{
    let d = x.digest;
    if !d.is_complex() {
        return false;
    }
    let opcode = x.opcode;
    match opcode {
        // BT, BTS, BTR, BTC
        24..=27 => x.specs[0] != rules::REG_MMM,
        _ => true,
    }
}

#[tactic(auto, using(access::proofs::Laws::level_number_lem), unfolding(definition::specs::Behaviors::may_protect))]
fn may_protect(x: Record) -> bool
    ensures { result ≡ may_protect x }
{
    let d = x.digest;
    d.privilege_level() != PrivilegeLevel::Any
}

// The exceptions that a record, after fix-ups, may raise. Neither vector is refused.
#[tactic(auto, using(crate::proofs::Answers::two_vectors), unfolding(definition::specs::Behaviors::exceptions_of, access::specs::Exceptions::set_of))]
pub fn exceptions_of(x: Record) -> ExceptionInfo
    ensures { result ≡ info_of (exceptions_of x) }
{
    let protected = ExceptionInfo::empty().set(Exception::GP, may_protect(x));
    then_set(protected, Exception::PF, memory::may_fault(x)).unwrap()
}

// The calls over a record's bytes: each hands on why they are no record.
#[tactic(auto, unfolding(definition::specs::Behaviors::digest_call))]
pub fn digest_answer(b: &[u8]) -> Result<BehaviorDigest, Refusal>
    ensures { result ≡ digest_call b.now }
{
    Ok(digest_of(Record::from_bytes(b)?))
}

#[tactic(auto, unfolding(definition::specs::Behaviors::privilege_call))]
pub fn privilege_answer(b: &[u8]) -> Result<PrivilegeLevel, Refusal>
    ensures { result ≡ privilege_call b.now }
{
    Ok(digest_of(Record::from_bytes(b)?).privilege_level())
}

#[tactic(auto, unfolding(definition::specs::Behaviors::exceptions_call))]
pub fn exceptions_answer(b: &[u8]) -> Result<ExceptionInfo, Refusal>
    ensures { result ≡ exceptions_call b.now }
{
    Ok(exceptions_of(fixed_up(Record::from_bytes(b)?)))
}
