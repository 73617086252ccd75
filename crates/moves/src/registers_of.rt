// Registers that an explicit operand reads or writes.
// Stays: document 01's form, each writer is lent the part of the log behind what was written so far, with room for its own events.
ghost use Rattle.std.specs.Prelude.{◌≡◌, ◌≤◌, length};
ghost use Rattle.laws.specs.Lending.{size, Logged};
ghost use Rattle.implicit.specs.declared.Way.TheVariants.{Read, Write};
ghost use Rattle.definition.specs.Steps.{mask_registers};
ghost use Rattle.definition.specs.Addresses.{segment_registers};
ghost use Rattle.definition.specs.Logs.{event_bytes};
ghost use Rattle.event.specs.Moves.{moved};
ghost use Rattle.moves.specs.Touches.{plain_events, masked_events};

use event::put_register;
use implicit::Way;
use operand::{apply_x86_zext, segment_register};
use registers::RegSpec;

// Mask 0 is never logged.
// Stays: 0 is no mask in document 01 and in the record's byte, and `mask_registers` says so; so for segments, below.
#[tactic(auto, unfolding(definition::specs::Steps::mask_registers, event::specs::Moves::moved, laws::specs::Lists::each))]
pub fn put_mask(log: &mut [u8], mask: u8) -> usize
    requires { size event_bytes (moved Read (mask_registers mask)) ≤ length log.old }
    ensures { Logged event_bytes (moved Read (mask_registers mask)) log.old log.new result }
{
    if mask == 0 {
        return 0;
    }
    put_register(
        log,
        Way::Read,
        RegSpec {
            bank: 8,
            number: mask,
        },
    )
}

// The base of no segment is never logged.
#[tactic(auto, unfolding(definition::specs::Addresses::segment_registers, event::specs::Moves::moved, laws::specs::Lists::each))]
pub fn put_segment(log: &mut [u8], segment: u8) -> usize
    requires { size event_bytes (moved Read (segment_registers segment)) ≤ length log.old }
    ensures { Logged event_bytes (moved Read (segment_registers segment)) log.old log.new result }
{
    if segment == 0 {
        return 0;
    }
    put_register(log, Way::Read, segment_register(segment))
}

#[tactic(auto, unfolding(crate::specs::Touches::plain_events))]
pub fn put_plain(log: &mut [u8], way: Way, y: RegSpec) -> usize
    requires { size event_bytes (plain_events way y) ≤ length log.old }
    ensures { Logged event_bytes (plain_events way y) log.old log.new result }
{
    match way {
        Way::Read => put_register(log, Way::Read, y),
        Way::Write => put_register(log, Way::Write, apply_x86_zext(y)),
    }
}

// Read, the register comes before its mask.
fn put_masked_read(log: &mut [u8], y: RegSpec, mask: u8) -> usize
    requires { size event_bytes (masked_events Read y mask) ≤ length log.old }
    ensures { Logged event_bytes (masked_events Read y mask) log.old log.new result }
{
    let n = put_register(log, Way::Read, y);
    n + put_mask(&mut log[n..], mask)
}

// Written, it comes after it, and as it is.
// Stays: the two differ in their order, which no constant or type decides.
fn put_masked_write(log: &mut [u8], y: RegSpec, mask: u8) -> usize
    requires { size event_bytes (masked_events Write y mask) ≤ length log.old }
    ensures { Logged event_bytes (masked_events Write y mask) log.old log.new result }
{
    let n = put_mask(log, mask);
    n + put_register(&mut log[n..], Way::Write, y)
}

pub fn put_masked(log: &mut [u8], way: Way, y: RegSpec, mask: u8) -> usize
    requires { size event_bytes (masked_events way y mask) ≤ length log.old }
    ensures { Logged event_bytes (masked_events way y mask) log.old log.new result }
{
    match way {
        Way::Read => put_masked_read(log, y, mask),
        Way::Write => put_masked_write(log, y, mask),
    }
}
