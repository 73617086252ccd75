// The registers of the addresses at which a record's explicit operands access memory, and the bases of their segments.
ghost use Rattle.std.specs.Prelude.{◌≡◌, cond, []};
ghost use Rattle.laws.specs.Lists.{each};
ghost use Rattle.sets.specs.Sets.{joined};
ghost use Rattle.definition.specs.Tables.{shape_of};
ghost use Rattle.definition.specs.Addresses.{base_of, index_of};
ghost use Rattle.definition.specs.Behaviors.{operand_at, operands_of};
ghost use Rattle.definition.specs.Steps.{shape_base};
ghost use Rattle.fetch.specs.Parts.{shape_index, shape_segment, shape_needs, loads_at, operand_needs};

use crate::slots::{with_segment, with_term};
use definition::Term;
use moves::LEA;
use operand::takes_base;
use record::Record;
use registers::names::{EDI, ESI, RDI, RSI};

// The base of a memory spec: `regs[1]`, or the register that the spec names.
// Stays: specs are numbers of document 01, and the arms read like its table.
fn base_of(x: Record, spec: u8) -> Term
    ensures { result ≡ base_of x (shape_base (shape_of spec)) }
{
    match spec {
        18..=19 => Term::Plain(x.regs[1]),
        20 => Term::Plain(RDI),
        21 => Term::Plain(RSI),
        22 => Term::Plain(EDI),
        23 => Term::Plain(ESI),
        24..=25 => Term::Plain(x.regs[1]),
        30..=33 => Term::Plain(x.regs[1]),
        _ => Term::Absent,
    }
}

fn index_of(x: Record, spec: u8) -> Term
    ensures { result ≡ index_of x (shape_index (shape_of spec)) }
{
    match spec {
        26..=33 => Term::Scaled(x.regs[2], x.scale),
        _ => Term::Absent,
    }
}

// The segment that a memory spec is accessed in: the record's, and none for the destination of a string instruction.
fn segment_of(x: Record, spec: u8) -> u8
    ensures { result ≡ shape_segment x (shape_of spec) }
{
    if takes_base(spec) { x.segment } else { 0 }
}

// Stays: set, record and spec one by one: the record is a type of another crate, and a struct of them would be made at each call.
fn with_access(set: u32, x: Record, spec: u8) -> u32
    ensures { result ≡ joined set (shape_needs x (shape_of spec)) }
{
    let base = base_of(x, spec);
    let index = index_of(x, spec);
    let segment = segment_of(x, spec);
    with_term(with_term(with_segment(set, segment), base), index)
}

// LEA's read reads no memory.
fn with_operand(set: u32, x: Record, i: u8) -> u32
    ensures { result ≡ joined set (operand_needs x (operand_at x i)) }
{
    let access = x.digest.operand_access(i);
    let spec = x.spec(i);
    let mut joined = set;
    if access.is_read() && x.opcode != LEA {
        joined = with_access(joined, x, spec);
    }
    if access.is_write() {
        joined = with_access(joined, x, spec);
    }
    joined
}

// Those below count, of which there are at most four.
pub(crate) fn with_operands(set: u32, x: Record) -> u32
    ensures { result ≡ joined set (each (operand_needs x) (operands_of x)) }
{
    let mut joined = set;
    for i in 0..x.count.min(4) {
        joined = with_operand(joined, x, i);
    }
    joined
}
