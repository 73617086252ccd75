// The implicit lists, as document 01 gives them.
#![tactic(auto)]

ghost use Rattle.std.specs.Prelude.{◌≤◌, ◌∷◌, ◌++◌, [], length};
ghost use Rattle.laws.specs.Lending.{size, Logged};
ghost use Rattle.definition.specs.Logs.{event_bytes, memory_event};
ghost use Rattle.definition.specs.declared.Event.TheVariants.{RegisterRead, RegisterWrite};
ghost use Rattle.implicit.specs.Lists.{rsp};
ghost use Rattle.implicit.specs.declared.Way.TheVariants.{Read, Write};
ghost use Rattle.event.specs.Moves.{moved};
ghost use Rattle.implied.specs.Implied.{slot_events, slots_events, list_events};

use event::{put_memory, put_register};
use implicit::Way;
use record::Record;
use registers::names::{
    AL, AX, CX, DX, EAX, ECX, EDI, EDX, ESI, RAX, RBX, RCX, RDI, RDX, RSI, RSP, XMM0,
};
use registers::{RegSpec, Value};

// The registers, one after the other. Inlined, the loop is gone where the registers are named at the call.
// Stays: document 01's form, each writer is lent the part of the log behind what was written so far, with room for its own events.
#[inline(always)]
fn put_each(log: &mut [u8], way: Way, registers: &[RegSpec]) -> usize
    requires { size event_bytes (moved way registers.now) ≤ length log.old }
    ensures { Logged event_bytes (moved way registers.now) log.old log.new result }
{
    let mut n = 0;
    for y in registers {
        n += put_register(&mut log[n..], way, *y);
    }
    n
}

// Each of the first is read, then each of the others written.
#[inline(always)]
fn put_moves(log: &mut [u8], reads: &[RegSpec], writes: &[RegSpec]) -> usize
    requires { size event_bytes (moved Read reads.now ++ moved Write writes.now) ≤ length log.old }
    ensures { Logged event_bytes (moved Read reads.now ++ moved Write writes.now) log.old log.new result }
{
    let n = put_each(log, Way::Read, reads);
    n + put_each(&mut log[n..], Way::Write, writes)
}

// The registers of an address, then the access.
#[inline(always)]
fn put_touch(log: &mut [u8], way: Way, registers: &[RegSpec], at: Value, bytes: u8) -> usize
    requires { size event_bytes (moved Read registers.now ++ memory_event way at bytes ∷ []) ≤ length log.old }
    ensures { Logged event_bytes (moved Read registers.now ++ memory_event way at bytes ∷ []) log.old log.new result }
{
    let n = put_each(log, Way::Read, registers);
    n + put_memory(&mut log[n..], way, at, bytes)
}

// Push writes and pop reads where rsp points.
fn put_stack(log: &mut [u8], way: Way, at: Value, bytes: u8) -> usize
    requires { size event_bytes (RegisterRead rsp ∷ RegisterWrite rsp ∷ RegisterRead rsp ∷ memory_event way at bytes ∷ []) ≤ length log.old }
    ensures { Logged event_bytes (RegisterRead rsp ∷ RegisterWrite rsp ∷ RegisterRead rsp ∷ memory_event way at bytes ∷ []) log.old log.new result }
{
    let n = put_moves(log, &[RSP], &[RSP]);
    n + put_touch(&mut log[n..], way, &[RSP], at, bytes)
}

// A string slot logs the register of its spec and no memory.
// Stays: a slot is the number of an operand, and a spec a number of document 01.
#[tactic(auto, unfolding(crate::specs::Implied::slot_events, definition::specs::Steps::slot_registers, definition::specs::Steps::shape_base, definition::specs::Tables::shape_of, definition::specs::Addresses::base_of, definition::specs::Addresses::term_registers, laws::specs::Tests::is_in, laws::specs::Tests::any, laws::specs::Lists::flat, event::specs::Moves::moved))]
fn put_slot(log: &mut [u8], x: Record, slot: u8) -> usize
    requires { size event_bytes (slot_events x slot) ≤ length log.old }
    ensures { Logged event_bytes (slot_events x slot) log.old log.new result }
{
    let spec = x.spec(slot);
    match spec {
        18 => put_moves(log, &[x.regs[1]], &[x.regs[1]]),
        20 => put_moves(log, &[RDI], &[RDI]),
        21 => put_moves(log, &[RSI], &[RSI]),
        22 => put_moves(log, &[EDI], &[EDI]),
        23 => put_moves(log, &[ESI], &[ESI]),
        _ => 0,
    }
}

fn put_slots(log: &mut [u8], x: Record) -> usize
    requires { size event_bytes (slots_events x) ≤ length log.old }
    ensures { Logged event_bytes (slots_events x) log.old log.new result }
{
    let n = put_slot(log, x, 0);
    n + put_slot(&mut log[n..], x, 1)
}

// The record is one after fix-ups; its list's memory lies at the place that is given.
#[tactic(auto, unfolding(crate::specs::Implied::list_events, event::specs::Moves::moved))]
pub fn put_list(log: &mut [u8], x: Record, at: Value) -> usize
    requires { size event_bytes (list_events x at x.digest.extra) ≤ length log.old }
    ensures { Logged event_bytes (list_events x at x.digest.extra) log.old log.new result }
{
    let list = x.digest.extra;
    // Stays: lists by their numbers in document 01, which a digest holds; an enum of them would be made by a match like this one.
    match list {
        // MUL
        1 => put_moves(log, &[AL], &[AX]),
        2 => put_moves(log, &[AX], &[AX, DX]),
        3 => put_moves(log, &[EAX], &[RAX, RDX]),
        4 => put_moves(log, &[RAX], &[RAX, RDX]),
        // DIV
        5 => put_moves(log, &[AX], &[AX]),
        6 => put_moves(log, &[AX, DX], &[AX, DX]),
        7 => put_moves(log, &[EAX, EDX], &[RAX, RDX]),
        8 => put_moves(log, &[RAX, RDX], &[RAX, RDX]),
        // CMPXCHG
        9 => put_moves(log, &[AL], &[AL]),
        10 => put_moves(log, &[AX], &[AX]),
        11 => put_moves(log, &[EAX], &[RAX]),
        12 => put_moves(log, &[RAX], &[RAX]),
        // MULX
        13 => put_register(log, Way::Read, EDX),
        14 => put_register(log, Way::Read, RDX),
        // VMASKMOVDQU
        15 => put_touch(log, Way::Write, &[EDI], at, x.size),
        16 => put_touch(log, Way::Write, &[RDI], at, x.size),
        // PCMPESTRI, PCMPESTRM
        17 => put_moves(log, &[EAX, EDX], &[RCX]),
        18 => put_moves(log, &[RAX, RDX], &[RCX]),
        19 => put_moves(log, &[EAX, EDX], &[XMM0]),
        20 => put_moves(log, &[RAX, RDX], &[XMM0]),
        // LOOP
        21 => put_moves(log, &[RCX], &[RCX]),
        22 => put_moves(log, &[CX], &[CX]),
        23 => put_moves(log, &[ECX], &[RCX]),
        // String
        24 => put_slot(log, x, 0),
        25 => put_slots(log, x),
        // Push, pop, XLAT
        26 => put_stack(log, Way::Write, at, x.size),
        27 => put_stack(log, Way::Read, at, x.size),
        28 => put_touch(log, Way::Read, &[RBX, AL], at, x.size),
        _ => 0,
    }
}
