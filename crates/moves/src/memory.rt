// Memory that an explicit operand touches: the registers of the address, the mask, then the access.
// Stays: document 01's form, each writer is lent the part of the log behind what was written so far, with room for its own events.
ghost use Rattle.std.specs.Prelude.{◌≡◌, ◌≤◌, length};
ghost use Rattle.record.specs.Records.{everyday_bytes, record_of};
ghost use Rattle.laws.specs.Lending.{size, Logged};
ghost use Rattle.definition.specs.Logs.{event_bytes};
ghost use Rattle.moves.specs.Touches.{stops, access_events, deref_events, indexed_events};

use crate::registers_of::put_mask;
use address::{cut, sum};
use event::{put_memory, put_register};
use implicit::Way;
use registers::{RegSpec, Value};

// Stays: an opcode is a number of document 01, a field of the record.
pub const LEA: u16 = 28;

// Under LEA a read part stops before the access; a write part does not.
pub fn is_stopped(b: &[u8], way: Way) -> bool
    requires { everyday_bytes ≤ length b.now }
    ensures { result ≡ stops (record_of b.now) way }
{
    match way {
        Way::Read => record::opcode_in(b) == LEA,
        Way::Write => false,
    }
}

// Stays: b, way and added one by one. docs/ARCHITECTURE.md names these calls, so no type takes over what they require of b.

// The access itself: the sum of every explicit operand comes here last, is cut here, and moved by the base of its segment.
#[tactic(auto, unfolding(crate::specs::Touches::access_events, laws::specs::Lists::each))]
pub fn put_access(log: &mut [u8], b: &[u8], way: Way, at: Value, added: Value) -> usize
    requires { (everyday_bytes ≤ length b.now) × (size event_bytes (access_events (record_of b.now) way at added) ≤ length log.old) }
    ensures { Logged event_bytes (access_events (record_of b.now) way at added) log.old log.new result }
{
    if is_stopped(b, way) {
        return 0;
    }
    put_memory(log, way, sum(added, cut(b, at)), record::size_in(b))
}

// The one register of an address.
pub fn put_deref(
    log: &mut [u8],
    b: &[u8],
    way: Way,
    y: RegSpec,
    mask: u8,
    at: Value,
    added: Value,
) -> usize
    requires { (everyday_bytes ≤ length b.now) × (size event_bytes (deref_events (record_of b.now) way y mask at added) ≤ length log.old) }
    ensures { Logged event_bytes (deref_events (record_of b.now) way y mask at added) log.old log.new result }
{
    let m = put_register(log, Way::Read, y);
    let n = m + put_mask(&mut log[m..], mask);
    n + put_access(&mut log[n..], b, way, at, added)
}

// Base and index.
pub fn put_indexed(log: &mut [u8], b: &[u8], way: Way, mask: u8, at: Value, added: Value) -> usize
    requires { (everyday_bytes ≤ length b.now) × (size event_bytes (indexed_events (record_of b.now) way mask at added) ≤ length log.old) }
    ensures { Logged event_bytes (indexed_events (record_of b.now) way mask at added) log.old log.new result }
{
    let n = put_register(log, Way::Read, record::reg_in(b, 1));
    n + put_deref(&mut log[n..], b, way, record::reg_in(b, 2), mask, at, added)
}
