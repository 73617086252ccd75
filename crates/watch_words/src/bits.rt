// What a step and an event of a watch answer, each part at its bit.
// Stays: no From: neither u64 nor an answer is a type of this crate, and counts must lie in their bits.
ghost use Rattle.std.specs.Prelude.{◌≡◌, ◌^◌, ◌<◌, IfOk};
ghost use Rattle.definition.specs.Visits.{opcode_of};
ghost use Rattle.watching.specs.Tallies.{total};
ghost use Rattle.watching.specs.Verdicts.{variable, name_at};
ghost use Rattle.watch_words.specs.Bits.{tally_bits, stepped_bits, naming_bits};

use definition::Answer;
use laws::Refusal;
use visiting::number_of;
use watching::{Naming, Stepped, Tally, Variable};

fn opcode_of(a: Answer) -> u16
    ensures { result ≡ opcode_of a }
{
    match a {
        Answer::Done(_) => 0,
        Answer::Refused(_) => 0,
        Answer::Complex(opcode) => opcode,
        Answer::Short(_) => 0,
    }
}

// The four counts, a byte for each.
fn tally_bits(t: Tally) -> u64
    requires { total t < 2 ^ 8 }
    ensures { (result ≡ tally_bits t) × (result < 2 ^ 32) }
{
    t.unknown + t.none * 0x100 + t.part * 0x1_0000 + t.whole * 0x100_0000
}

pub fn stepped_bits(stepped: Result<Stepped, Refusal>) -> u64
    requires { IfOk stepped (λ s. total s.tally < 2 ^ 8) }
    ensures { result ≡ stepped_bits stepped }
{
    match stepped {
        Ok(s) => {
            let visited = number_of(s.visit) as u64;
            let opcode = opcode_of(s.visit) as u64;
            visited * 0x100 + tally_bits(s.tally) * 0x1_0000 + opcode * 0x1_0000_0000_0000
        }
        Err(refusal) => u64::from(refusal),
    }
}

// Stays: address and length, log and place, as the C call has them.
pub fn verdict_bits(address: u64, length: u64, log: &[u8], at: usize) -> u64
    ensures { result ≡ naming_bits at (name_at (variable address length) log.now at) }
{
    match watching::name_event(Variable { address, length }, log, at) {
        Naming::Named(verdict, touched, next) => {
            let low = (u8::from(verdict) as u64) * 0x100 + (touched as u64) * 0x1_0000;
            low + ((next - at) as u64) * 0x1_0000_0000
        }
        Naming::Unnamed(refusal) => u64::from(refusal),
        Naming::Ended => 255,
    }
}
