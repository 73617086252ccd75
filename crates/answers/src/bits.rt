// The parts of an answer, each at its bit.
// Stays: no From: neither u64 nor an answer is a type of this crate. One function for all would take the bits as a closure, no plainer.
ghost use Rattle.std.specs.Prelude.{◌≡◌, ◌^◌, ◌<◌};
ghost use Rattle.definition.specs.Visits.{count_of};
ghost use Rattle.answers.specs.Answers.{answer_bits, digest_bits, privilege_bits, exception_bits, difference_bits};

use access::{ExceptionInfo, PrivilegeLevel};
use definition::Answer;
use difference::Parted;
use digest::BehaviorDigest;
use laws::Refusal;

pub fn answer_bits(a: Answer) -> u64
    requires { count_of a < 2 ^ 32 }
    ensures { result ≡ answer_bits a }
{
    match a {
        Answer::Done(n) => (n as u64) * 0x1_0000_0000,
        Answer::Refused(number) => number as u64,
        Answer::Complex(opcode) => 4 + (opcode as u64) * 0x100,
        Answer::Short(n) => 7 + (n as u64) * 0x1_0000_0000,
    }
}

pub fn digest_bits(a: Result<BehaviorDigest, Refusal>) -> u64
    ensures { result ≡ digest_bits a }
{
    match a {
        Ok(d) => {
            (d.behavior as u64) * 0x100
                + (d.operands as u64) * 0x1_0000
                + (d.extra as u64) * 0x1_0000_0000
        }
        Err(refusal) => u64::from(refusal),
    }
}

pub fn privilege_bits(a: Result<PrivilegeLevel, Refusal>) -> u64
    ensures { result ≡ privilege_bits a }
{
    match a {
        Ok(level) => (level.to_bits() as u64) * 0x100,
        Err(refusal) => u64::from(refusal),
    }
}

pub fn exception_bits(a: Result<ExceptionInfo, Refusal>) -> u64
    ensures { result ≡ exception_bits a }
{
    match a {
        Ok(info) => (info.vectors as u64) * 0x1_0000_0000,
        Err(refusal) => u64::from(refusal),
    }
}

pub fn difference_bits(p: Parted) -> u64
    ensures { result ≡ difference_bits p }
{
    let number = p.number as u64;
    if p.differs {
        return number + 0x100;
    }
    number
}
