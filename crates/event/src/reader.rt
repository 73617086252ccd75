// What stands at a place of a log, whatever its bytes: kind and length first, contents after.
ghost use Rattle.std.specs.Prelude.{◌≡◌, ◌<◌, length, get_or};
ghost use Rattle.definition.specs.Readings.{body_of, front_event, is_event, is_size, read_front, read_at};
ghost use Rattle.registers.specs.Banks.{reg};

use definition::{Event, Reading};
use laws::Refusal;
use registers::RegSpec;

// The event at a place and the place after it, a refusal, or the end: at or past the end of the log.
// Stays: a log and a place: any place has an answer, and machhurel_event asks at one.
#[tactic(auto, using(crate::proofs::Fronts::finished))]
pub fn read_event(log: &[u8], at: usize) -> Reading
    ensures { result ≡ read_at log.now at }
{
    if log.len() <= at {
        return Reading::Finished;
    }
    let r = read_front(&log[at..]);
    match r {
        Reading::Found(e, n) => Reading::Found(e, at + n),
        Reading::Bad(refusal) => Reading::Bad(refusal),
        Reading::Finished => Reading::Finished,
    }
}

// The same at the front, with the event's length in place of the place after it.
#[tactic(auto, using(crate::proofs::Fronts::front_empty, crate::proofs::Fronts::front_unknown, crate::proofs::Fronts::front_cut))]
pub fn read_front(log: &[u8]) -> Reading
    ensures { result ≡ read_front log.now }
{
    if log.len() == 0 {
        return Reading::Finished;
    }
    let body = body_of(log[0]);
    if body == 0 {
        return Reading::Bad(Refusal::Malformed);
    }
    if log.len() - 1 < body {
        return Reading::Bad(Refusal::Malformed);
    }
    let e = front_event(log);
    if is_event(e) {
        Reading::Found(e, 1 + body)
    } else {
        Reading::Bad(Refusal::Outside)
    }
}

// How many bytes stand behind a kind, 0 for no kind.
// Stays: no plainer, a kind is a byte of the log, and an enum of kinds would be made from it in one match and taken apart in the next.
#[tactic(auto, using(crate::proofs::Bodies::register_body, crate::proofs::Bodies::memory_body, crate::proofs::Bodies::unknown_body, crate::proofs::Bodies::no_body, crate::proofs::Bodies::past_bodies))]
fn body_of(kind: u8) -> usize
    ensures { result ≡ body_of kind }
{
    match kind {
        1..=2 => 2,
        3..=4 => 9,
        5..=6 => 1,
        _ => 0,
    }
}

// The event at the front, where its body is whole.
#[tactic(auto, unfolding(definition::specs::Readings::body_of, definition::specs::Readings::front_event))]
fn front_event(log: &[u8]) -> Event
    requires { body_of (get_or log.now 0 0) < length log.now }
    ensures { result ≡ front_event log.now }
{
    let kind = log[0];
    match kind {
        1 => Event::RegisterRead(register_at(log)),
        2 => Event::RegisterWrite(register_at(log)),
        3 => Event::MemoryRead(laws::u64_at(log, 1), log[9]),
        4 => Event::MemoryWrite(laws::u64_at(log, 1), log[9]),
        5 => Event::UnknownRead(log[1]),
        6 => Event::UnknownWrite(log[1]),
        _ => Event::UnknownRead(0),
    }
}

fn register_at(log: &[u8]) -> RegSpec
    requires { 2 < length log.now }
    ensures { result ≡ reg (get_or log.now 1 0) (get_or log.now 2 0) }
{
    RegSpec {
        bank: log[1],
        number: log[2],
    }
}

// Stays: no switch on steps but a match on the cases of an enum, each with what it holds.
#[tactic(auto, unfolding(definition::specs::Readings::is_event))]
fn is_event(e: Event) -> bool
    ensures { result ≡ is_event e }
{
    match e {
        Event::RegisterRead(y) => RegSpec::is_logged(y.bank, y.number),
        Event::RegisterWrite(y) => RegSpec::is_logged(y.bank, y.number),
        Event::MemoryRead(_, n) => is_size(n),
        Event::MemoryWrite(_, n) => is_size(n),
        Event::UnknownRead(n) => is_size(n),
        Event::UnknownWrite(n) => is_size(n),
    }
}

fn is_size(n: u8) -> bool
    ensures { result ≡ is_size n }
{
    (1..=64).contains(&n)
}
