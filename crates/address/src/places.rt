// What a register file says of the registers that a record's addresses are made of: the one place where a file is asked.
ghost use Rattle.std.specs.Prelude.{◌≡◌};
ghost use Rattle.registers.specs.Files.{value_of};
ghost use Rattle.definition.specs.Addresses.{segment_register};
ghost use Rattle.address.specs.Places.{implied_place, sources_of};

use crate::values::{plus, scaled, sum};
use record::Record;
use registers::names::{AL, EDI, FS, GS, RBX, RDI, RSI, RSP};
use registers::{RegisterFile, Value};

// What the addresses of a record are made of: `regs[1]`, `regs[2]` times scale, the two registers that specs 20 to 23 name whole or
// by their low half, where the memory of the implicit list lies, and the base of the record's segment.
#[derive(Clone, Copy)]
pub struct Sources {
    pub base: Value,
    pub index: Value,
    pub rdi: Value,
    pub rsi: Value,
    pub implied: Value,
    pub segment: Value,
}

const MINUS_8: u64 = 0xFFFF_FFFF_FFFF_FFF8;

// Where the memory of an implicit list lies: unknown for one that has none.
// Stays: lists, and segments below, are numbers of document 01, as the record's bytes have them; the arms read like its table.
#[tactic(auto, using(crate::proofs::NoPlace::no_place))]
fn implied_place(f: RegisterFile, list: u16) -> Value
    ensures { result ≡ implied_place f list }
{
    match list {
        15 => f.value(EDI),
        16 => f.general(RDI.number),
        26 => plus(f.general(RSP.number), MINUS_8),
        27 => f.general(RSP.number),
        28 => sum(f.general(RBX.number), f.value(AL)),
        _ => None,
    }
}

// The base of a segment: that of gs where the segment is not fs.
#[tactic(auto, unfolding(definition::specs::Addresses::segment_register))]
fn segment_base(f: RegisterFile, segment: u8) -> Value
    ensures { result ≡ value_of f (segment_register segment) }
{
    if segment == 1 {
        f.base(FS.number)
    } else {
        f.base(GS.number)
    }
}

// The record is one after fix-ups.
#[tactic(auto, unfolding(crate::specs::Places::sources_of))]
pub fn resolve(f: RegisterFile, x: Record) -> Sources
    ensures { result ≡ sources_of f x }
{
    let two = f.two_values(x.regs[1], x.regs[2]);
    Sources {
        base: two.base,
        index: scaled(two.index, x.scale),
        rdi: f.general(RDI.number),
        rsi: f.general(RSI.number),
        implied: implied_place(f, x.digest.extra),
        segment: segment_base(f, x.segment),
    }
}
