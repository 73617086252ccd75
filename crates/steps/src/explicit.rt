// The explicit operands: for each its read part, then its write part.
// Stays: document 01's form, each writer is lent the part of the log behind what was written so far, with room for its own events.
ghost use Rattle.std.specs.Prelude.{◌≡◌, ◌≤◌, ◌<◌, length};
ghost use Rattle.laws.specs.Lending.{size, Logged};
ghost use Rattle.record.specs.Records.{everyday_bytes, record_of};
ghost use Rattle.definition.specs.Logs.{event_bytes};
ghost use Rattle.steps.specs.Parts.{Lent, part_events, part_segment, added_by, based_events, way_of, part_count, part_bits, explicit_events};

use address::{Sources, low, plus, sign_extended, sum};
use implicit::Way;
use moves::{is_stopped, put_access, put_deref, put_indexed, put_masked, put_plain, put_segment};
use operand::{fourth_of, takes_base};
use record::Record;
use registers::Value;
use registers::names::{EDI, ESI, RDI, RSI};

// One part of an operand, by its spec: Nothing and immediates log nothing. The base of its segment is what is added to its address.
#[tactic(auto, unfolding(crate::specs::Parts::part_events))]
fn put_part(log: &mut [u8], b: &[u8], spec: u8, way: Way, at: Sources, added: Value) -> usize
    requires { (everyday_bytes ≤ length b.now) × (size event_bytes (part_events (record_of b.now) way at added spec) ≤ length log.old) }
    ensures { Logged event_bytes (part_events (record_of b.now) way at added spec) log.old log.new result }
{
    let base = record::reg_in(b, 1);
    let index = record::reg_in(b, 2);
    let at_base = at.base;
    let at_index = at.index;
    let at_rdi = at.rdi;
    let at_rsi = at.rsi;
    // Stays: specs by their numbers in document 01, as the record's byte has them; an enum of them would be made by a match like this.
    // Stays: an arm for each spec. With 18 | 19 in one, and so on, a visit took 598, 621 and 634 instructions in place of 583, 606 and 609.
    match spec {
        1 => put_plain(log, way, record::reg_in(b, 0)),
        2 => put_plain(log, way, base),
        3 => put_plain(log, way, record::reg_in(b, 3)),
        4 => put_plain(log, way, fourth_of(b)),
        5 => put_masked(log, way, record::reg_in(b, 0), record::mask_in(b)),
        6 => put_masked(log, way, record::reg_in(b, 0), record::mask_in(b)),
        7 => put_masked(log, way, record::reg_in(b, 0), record::mask_in(b)),
        8 => put_masked(log, way, base, record::mask_in(b)),
        9 => put_masked(log, way, base, record::mask_in(b)),
        10 => put_masked(log, way, record::reg_in(b, 3), record::mask_in(b)),
        18 => put_deref(log, b, way, base, 0, at_base, added),
        19 => put_deref(log, b, way, base, record::mask_in(b), at_base, added),
        20 => put_deref(log, b, way, RDI, 0, at_rdi, added),
        21 => put_deref(log, b, way, RSI, 0, at_rsi, added),
        22 => put_deref(log, b, way, EDI, 0, low(at_rdi), added),
        23 => put_deref(log, b, way, ESI, 0, low(at_rsi), added),
        24 => put_deref(
            log,
            b,
            way,
            base,
            0,
            plus(at_base, sign_extended(record::disp_in(b))),
            added,
        ),
        25 => put_deref(
            log,
            b,
            way,
            base,
            record::mask_in(b),
            plus(at_base, sign_extended(record::disp_in(b))),
            added,
        ),
        26 => put_deref(log, b, way, index, 0, at_index, added),
        27 => put_deref(log, b, way, index, record::mask_in(b), at_index, added),
        28 => put_deref(
            log,
            b,
            way,
            index,
            0,
            plus(at_index, sign_extended(record::disp_in(b))),
            added,
        ),
        29 => put_deref(
            log,
            b,
            way,
            index,
            record::mask_in(b),
            plus(at_index, sign_extended(record::disp_in(b))),
            added,
        ),
        30 => put_indexed(log, b, way, 0, sum(at_base, at_index), added),
        31 => put_indexed(
            log,
            b,
            way,
            record::mask_in(b),
            sum(at_base, at_index),
            added,
        ),
        32 => put_indexed(
            log,
            b,
            way,
            0,
            plus(sum(at_base, at_index), sign_extended(record::disp_in(b))),
            added,
        ),
        33 => put_indexed(
            log,
            b,
            way,
            record::mask_in(b),
            plus(sum(at_base, at_index), sign_extended(record::disp_in(b))),
            added,
        ),
        34 => put_access(log, b, way, plus(Some(0), record::disp_in(b)), added),
        35 => put_access(
            log,
            b,
            way,
            plus(Some(0), record::disp_in(b) % 0x1_0000_0000),
            added,
        ),
        _ => 0,
    }
}

// Even parts read, odd parts write.
// Stays: a part is the number of a bit of the record's accesses.
#[tactic(auto, unfolding(crate::specs::Parts::way_of))]
fn way_of(part: u8) -> Way
    ensures { result ≡ way_of part }
{
    if part % 2 == 0 { Way::Read } else { Way::Write }
}

// The segment whose base a part adds.
#[tactic(auto, unfolding(crate::specs::Parts::part_segment))]
fn segment_of(b: &[u8], spec: u8, way: Way) -> u8
    requires { everyday_bytes ≤ length b.now }
    ensures { result ≡ part_segment (record_of b.now) way spec }
{
    if is_stopped(b, way) {
        return 0;
    }
    if takes_base(spec) {
        record::segment_in(b)
    } else {
        0
    }
}

// No segment adds nothing.
// Stays: 0 is no segment in document 01 and in the record's byte, and `part_segment` says so.
fn added_by(segment: u8, base: Value) -> Value
    ensures { result ≡ added_by segment base }
{
    if segment == 0 { Some(0) } else { base }
}

// The base of its segment is read before all else of a part.
// Stays: b, way and at go along one by one, as the calls of moves take them.
fn put_based(log: &mut [u8], b: &[u8], spec: u8, way: Way, at: Sources) -> usize
    requires { (everyday_bytes ≤ length b.now) × (size event_bytes (based_events (record_of b.now) way at spec) ≤ length log.old) }
    ensures { Logged event_bytes (based_events (record_of b.now) way at spec) log.old log.new result }
{
    let segment = segment_of(b, spec, way);
    let base = at.segment;
    let added = added_by(segment, base);
    let n = put_segment(log, segment);
    n + put_part(&mut log[n..], b, spec, way, at, added)
}

// Two for each operand below count, of which there are at most four.
#[tactic(auto, unfolding(crate::specs::Parts::part_count))]
fn part_count(x: Record) -> u8
    ensures { (result ≡ part_count x) × (result ≤ 8) }
{
    if 4 < x.count { 8 } else { 2 * x.count }
}

// The accesses of the operands below count, a bit for each part: 2 i is the read part of operand i, and 2 i + 1 its write part.
#[tactic(auto, using(crate::proofs::Bits::shifted, crate::proofs::Bits::bits_below, crate::proofs::Bits::some_shift), unfolding(crate::specs::Parts::part_bits))]
fn parts_of(x: Record) -> u32
    ensures { (result ≡ part_bits x) × (result < 256) }
{
    let count = part_count(x);
    (x.digest.operands as u32) % (1 << count)
}

// From set bit to set bit, so that no branch is taken for a part that is not there. The record is one after fix-ups, and `b` its lent
// bytes.
pub fn put_operands(log: &mut [u8], b: &[u8], x: Record, at: Sources) -> usize
    requires { Lent x b.now × (size event_bytes (explicit_events x at) ≤ length log.old) }
    ensures { Logged event_bytes (explicit_events x at) log.old log.new result }
{
    let mut n = 0;
    let mut rest = parts_of(x);
    // Stays: no index is counted. An iterator over the set bits would be this loop in a type of its own.
    while rest != 0 {
        let part = u32::trailing_zeros(rest) as u8;
        let k = put_based(&mut log[n..], b, x.spec(part / 2), way_of(part), at);
        n = n + k;
        rest = rest - (1 << part);
    }
    n
}
