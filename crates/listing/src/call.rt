// The bytes of a whole listing, and the call.
ghost use Rattle.std.specs.Prelude.{◌≡◌, ◌≤◌, length};
ghost use Rattle.laws.specs.Lending.{size, Logged, lacks_room};
ghost use Rattle.listing.specs.Calls.{listed_from};
ghost use Rattle.listing.specs.Fields.{listed_of};
ghost use Rattle.definition.specs.Listings.{items_of, item_bytes, listing_of, listing_call};

use crate::AccessIter;
use crate::items::put_item;
use definition::Answer;
use digest::BehaviorDigest;
use record::Record;
use registers::RegSpec;

// Stays: document 01's form, each writer is lent the part of the buffer behind what was written so far.
// All items of a record after fix-ups. The cursor is handed on by its fields: as a whole it would go through memory.
fn put_items(out: &mut [u8], x: Record) -> usize
    requires { size item_bytes (items_of x) ≤ length out.old }
    ensures { Logged item_bytes (items_of x) out.old out.new result }
{
    let mut n = 0;
    let mut c = AccessIter::new();
    while let Some((item, behind)) = c.next(x) {
        n = n + put_item(&mut out[n..], item);
        c = AccessIter {
            explicit: behind.explicit,
            next: behind.next,
        };
    }
    n
}

// The same by the fields that a listing looks at: a record by value would go through memory at the call.
// Stays: the fields one by one, and zeros for the others (docs/DECISIONS.md).
#[tactic(auto, unfolding(crate::specs::Fields::listed_of))]
fn put_fields(
    out: &mut [u8],
    count: u8,
    first: u8,
    second: u8,
    third: u8,
    fourth: u8,
    d: BehaviorDigest,
) -> usize
    requires { size item_bytes (items_of (listed_of count first second third fourth d)) ≤ length out.old }
    ensures { Logged item_bytes (items_of (listed_of count first second third fourth d)) out.old out.new result }
{
    let specs = [first, second, third, fourth];
    let regs = [RegSpec { bank: 0, number: 0 }; 4];
    let x = Record {
        opcode: 0,
        count,
        specs,
        regs,
        size: 0,
        scale: 0,
        disp: 0,
        imm: 0,
        prefixes: 0,
        mask: 0,
        digest: d,
        segment: 0,
    };
    put_items(out, x)
}

// The listing of a record after fix-ups, to the front of what is lent.
#[tactic(auto, using(crate::proofs::Narrow::narrow_room))]
pub fn put_listing(out: &mut [u8], x: Record) -> usize
    requires { size item_bytes (items_of x) ≤ length out.old }
    ensures { Logged item_bytes (items_of x) out.old out.new result }
{
    put_fields(
        out, x.count, x.specs[0], x.specs[1], x.specs[2], x.specs[3], x.digest,
    )
}

// No listing is longer.
const MOST_LISTED: usize = 34;

// How long a listing is: it is written aside, and counted.
#[tactic(auto, using(definition::proofs::ListingBound::items_size))]
fn listing_length(x: Record) -> usize
    ensures { result ≡ length (listing_of x) }
{
    let mut aside = [0u8; MOST_LISTED];
    put_listing(&mut aside, x)
}

// The listing has no room from a start to the buffer's end. How long it is matters only where the longest has none.
fn is_full(x: Record, start: usize, end: usize) -> bool
    ensures { result ≡ lacks_room (length (listing_of x)) start end }
{
    if laws::lacks_room(MOST_LISTED, start, end) {
        laws::lacks_room(listing_length(x), start, end)
    } else {
        false
    }
}

// The listing of a record after fix-ups, from the start on, or refusal 7.
#[tactic(auto, using(crate::proofs::Calls::starts_room, crate::proofs::Calls::listing_room, crate::proofs::Calls::too_long, crate::proofs::Calls::fitting))]
fn list_record(x: Record, out: &mut [u8], start: usize) -> Answer
    ensures { (result, out.new) ≡ listed_from x out.old start }
{
    if is_full(x, start, out.len()) {
        Answer::Short(listing_length(x))
    } else {
        Answer::Done(put_listing(&mut out[start..], x))
    }
}

// Lists a record: the items go to the buffer from the start on. Any bytes, any start and any buffer have an answer; a refused call
// changes no byte.
// Stays: a buffer and a start, as the C call has them.
pub fn list_operands(b: &[u8], out: &mut [u8], start: usize) -> Answer
    ensures { (result, out.new) ≡ listing_call b.now out.old start }
{
    let read = match Record::from_bytes(b) {
        Ok(read) => read,
        Err(refusal) => return Answer::Refused(u8::from(refusal)),
    };
    let x = fixups::fixed_up(read);
    if fixups::is_complex(x) {
        return Answer::Complex(x.opcode);
    }
    list_record(x, out, start)
}
