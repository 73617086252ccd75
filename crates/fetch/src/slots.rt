// The full register that a register is part of, joined to a set by its known bit.
ghost use Rattle.std.specs.Prelude.{◌≡◌, cond, ltb, Some, None};
ghost use Rattle.laws.specs.Lists.{each};
ghost use Rattle.sets.specs.Sets.{joined};
ghost use Rattle.registers.specs.Banks.{reg};
ghost use Rattle.registers.specs.Files.{part_of};
ghost use Rattle.definition.specs.Addresses.{term_registers, segment_registers};
ghost use Rattle.fetching.specs.Needs.{slots_of};
ghost use Rattle.fetch.specs.Parts.{held_slot};

use definition::Term;
use registers::RegSpec;
use registers::names::{FS, GS};

// Stays: slots are the bits of a set, numbers of the C interface (machhurel_fetch_judge).
const GENERAL: u8 = 16;

const RIP: u8 = 16;

// The base of fs, and that of gs behind it.
const FS_BASE: u8 = 17;

// The slot of a register whose bank has so many.
fn slot_below(number: u8, most: u8, slot: u8) -> Option<u8>
    ensures { result ≡ cond (ltb number most) (Some slot) None }
{
    if number < most { Some(slot) } else { None }
}

// The low bytes of rax to rbx, and then the bytes above them: ah is rax.
#[tactic(auto, unfolding(registers::specs::Files::part_of, registers::specs::Banks::is_logged))]
fn byte_slot(number: u8) -> Option<u8>
    ensures { result ≡ held_slot (part_of (reg 4 number)).slot }
{
    match number {
        0..=3 => Some(number),
        4..=7 => Some(number - 4),
        _ => None,
    }
}

// The bases of fs and gs.
#[tactic(auto, unfolding(registers::specs::Files::part_of, registers::specs::Banks::is_logged))]
fn base_slot(number: u8) -> Option<u8>
    ensures { result ≡ held_slot (part_of (reg 13 number)).slot }
{
    if number < 2 {
        Some(FS_BASE + number)
    } else {
        None
    }
}

// The slot of a register in a file; none for one that is in no file.
// Stays: no twin of the one in `registers`, which answers a slot for any register, without a jump; here there may be none.
fn slot_of(y: RegSpec) -> Option<u8>
    ensures { result ≡ held_slot (part_of y).slot }
{
    match y.bank {
        0..=3 => slot_below(y.number, GENERAL, y.number),
        4 => byte_slot(y.number),
        9..=10 => slot_below(y.number, 1, RIP),
        13 => base_slot(y.number),
        _ => None,
    }
}

pub(crate) fn with_register(set: u32, y: RegSpec) -> u32
    ensures { result ≡ joined set (slots_of y) }
{
    match slot_of(y) {
        Some(slot) => sets::with(set, slot),
        None => set,
    }
}

// The register of a term of an address, times whatever scale, 0 too.
pub(crate) fn with_term(set: u32, t: Term) -> u32
    ensures { result ≡ joined set (each slots_of (term_registers t)) }
{
    match t {
        Term::Absent => set,
        Term::Plain(y) => with_register(set, y),
        Term::Scaled(y, _) => with_register(set, y),
    }
}

// The base of a segment; none is asked for its register.
// Stays: a segment is a number of document 01, 0 for none, as the record's byte has it.
pub(crate) fn with_segment(set: u32, segment: u8) -> u32
    ensures { result ≡ joined set (each slots_of (segment_registers segment)) }
{
    match segment {
        0 => set,
        1 => with_register(set, FS),
        _ => with_register(set, GS),
    }
}
