// How much of a watched variable an event wrote. The contracts count over sets of bytes; the code compares two distances around the circle
// of addresses.
ghost use Rattle.std.specs.Prelude.{◌≡◌, ℕ, ◌+◌, ◌*◌, ◌%◌, ◌^◌, ◌<◌, true, cond};
ghost use Rattle.laws.specs.Tests.{is_in};
ghost use Rattle.definition.specs.Addresses.{word};
ghost use Rattle.definition.specs.Readings.{is_event, is_size};
ghost use Rattle.watching.specs.Verdicts.{is_length, bytes_from, store_verdict, verdict_of, verdict_number, store_touched, touched_of, name_at};

use crate::watched::Watched;
use definition::{Event, Reading};
use event::read_event;
use laws::Refusal;

// A variable in memory: its first byte's address and its length in bytes.
#[derive(Clone, Copy)]
pub struct Variable {
    pub address: u64,
    pub length: u64,
}

// What an event did to the variable: it wrote no memory, or it wrote at an address that is not known, or it wrote none, part or whole of
// the variable's bytes.
#[derive(Clone, Copy, PartialEq, Eq)]
pub enum Verdict {
    NoWrite,
    AddressUnknown,
    NoneTouched,
    PartTouched,
    WholeTouched,
}

// The number that the verdict call gives it.
impl From<Verdict> for u8 {
    ghost from_gives = { λ v n. n ≡ verdict_number v };

    fn from(verdict: Verdict) -> u8 {
        match verdict {
            Verdict::NoWrite => 0,
            Verdict::AddressUnknown => 1,
            Verdict::NoneTouched => 2,
            Verdict::PartTouched => 3,
            Verdict::WholeTouched => 4,
        }
    }
}

// What is said of the event at a place of a log: its verdict, the variable's bytes that it wrote (bit i for byte i) and the place after
// it; or why it is refused; or that the log has ended.
// Stays: it has the three cases of definition::Reading; a Result<Option<..>, Refusal> would nest them, and be no plainer.
#[derive(Clone, Copy)]
pub enum Naming {
    Named(Verdict, u8, usize),
    Unnamed(Refusal),
    Ended,
}

impl Watched {
    // A store of n bytes at an address.
    #[tactic(auto, using(crate::proofs::Overlap::stores))]
    fn store_verdict(self, a: u64, n: u8) -> Verdict
        requires { is_size n ≡ true }
        ensures { result ≡ store_verdict self.variable a n }
    {
        let v = self.variable;
        let size = n as u64;
        let after = v.address.wrapping_sub(a);
        if after < size {
            if v.length <= size - after {
                return Verdict::WholeTouched;
            }
            return Verdict::PartTouched;
        }
        let before = a.wrapping_sub(v.address);
        if before < v.length {
            return Verdict::PartTouched;
        }
        Verdict::NoneTouched
    }

    #[tactic(auto, unfolding(crate::specs::Verdicts::verdict_of, definition::specs::Readings::is_event))]
    pub fn verdict_on(self, e: Event) -> Verdict
        requires { is_event e ≡ true }
        ensures { result ≡ verdict_of self.variable e }
    {
        match e {
            Event::MemoryWrite(a, n) => self.store_verdict(a, n),
            Event::UnknownWrite(_) => Verdict::AddressUnknown,
            _ => Verdict::NoWrite,
        }
    }

    // The variable's bytes that a store wrote.
    fn store_touched(self, a: u64, n: u8) -> u8
        ensures { result ≡ store_touched self.variable a n }
    {
        let v = self.variable;
        let mut bits = 0u8;
        for i in (0..v.length).rev() {
            bits = with_low(bits, touches(v, i, a, n));
        }
        bits
    }

    #[tactic(auto, unfolding(crate::specs::Verdicts::touched_of))]
    fn touched_by(self, e: Event) -> u8
        ensures { result ≡ touched_of self.variable e }
    {
        if let Event::MemoryWrite(a, n) = e {
            self.store_touched(a, n)
        } else {
            0
        }
    }
}

// Stays: what may not change, the clause of this public function; Watched::verdict_on has it in its type.
pub fn verdict_on(v: Variable, e: Event) -> Verdict
    requires { (is_length v.length ≡ true) × (is_event e ≡ true) }
    ensures { result ≡ verdict_of v e }
{
    let watched = Watched { variable: v };
    watched.verdict_on(e)
}

// Byte i of the variable is among the n bytes from an address on.
// Stays: a and n are the address and the size of a memory event, one by one as Event has them.
#[tactic(auto, using(crate::proofs::Overlap::touching))]
fn touches(v: Variable, i: u64, a: u64, n: u8) -> bool
    ensures { result ≡ is_in ((v.address + i) % word) (bytes_from a n) }
{
    let byte = v.address.wrapping_add(i);
    byte.wrapping_sub(a) < n as u64
}

// Bits moved up by one place, and a lowest one.
fn with_low(bits: u8, low: bool) -> u8
    requires { bits < 2 ^ 7 }
    ensures { result ≡ cond {A = ℕ} low 1 0 + 2 * bits }
{
    u8::from(low) + 2 * bits
}

// The event at a place of a log, named against the variable. A length that no variable has is refused 2, before the log is looked at.
// Stays: a log and a place, as the C call has them.
#[tactic(auto, unfolding(crate::specs::Verdicts::name_at))]
pub fn name_event(v: Variable, log: &[u8], at: usize) -> Naming
    ensures { result ≡ name_at v log.now at }
{
    let Ok(watched) = Watched::new(v) else {
        return Naming::Unnamed(Refusal::Outside);
    };
    let r = read_event(log, at);
    match r {
        Reading::Found(e, next) => Naming::Named(
            watched.verdict_on(e),
            watched.touched_by(e),
            next,
        ),
        Reading::Bad(refusal) => Naming::Unnamed(refusal),
        Reading::Finished => Naming::Ended,
    }
}
