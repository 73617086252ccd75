// Writers of one event each, at the front of the part of a log that is lent to them; each answers how many bytes it wrote.
// Stays: document 01's form, each writer is lent the part of the log behind what was written so far, with room for its own events.
ghost use Rattle.std.specs.Prelude.{◌≡◌, ◌∷◌, [], ◌≤◌, ◌<◌, length};
ghost use Rattle.laws.specs.Lending.{size, Logged};
ghost use Rattle.definition.specs.Logs.{event_bytes, memory_event};
ghost use Rattle.event.specs.Moves.{kind_of, move_event};

use implicit::Way;
use registers::{RegSpec, Value};

// The kind of a write stands behind that of the read.
// Stays: a kind is a byte of the log.
fn kind_of(way: Way, read: u8) -> u8
    requires { read < 255 }
    ensures { result ≡ kind_of way read }
{
    match way {
        Way::Read => read,
        Way::Write => read + 1,
    }
}

#[tactic(auto, using(crate::proofs::ByWay::register_room))]
pub fn put_register(log: &mut [u8], way: Way, y: RegSpec) -> usize
    requires { size event_bytes (move_event way y ∷ []) ≤ length log.old }
    ensures { Logged event_bytes (move_event way y ∷ []) log.old log.new result }
{
    log[0] = kind_of(way, 1);
    log[1] = y.bank;
    log[2] = y.number;
    3
}

// A read or a write of n bytes of memory, at an address that may be unknown.
#[tactic(auto, using(crate::proofs::ByWay::memory_room))]
pub fn put_memory(log: &mut [u8], way: Way, at: Value, n: u8) -> usize
    requires { size event_bytes (memory_event way at n ∷ []) ≤ length log.old }
    ensures { Logged event_bytes (memory_event way at n ∷ []) log.old log.new result }
{
    match at {
        Some(a) => {
            log[0] = kind_of(way, 3);
            laws::put_u64(&mut log[1..], a);
            log[9] = n;
            10
        }
        None => {
            log[0] = kind_of(way, 5);
            log[1] = n;
            2
        }
    }
}
