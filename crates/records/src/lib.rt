// A list of records as bytes, one after the other, each of the same length.
#![tactic(auto)]

mod lists; // lists.rt: a list that is not refused

ghost use Rattle.std.specs.Prelude.{◌≡◌};
ghost use Rattle.laws.specs.Refusals.{answered_by};
ghost use Rattle.laws.specs.Tests.{is_in};
ghost use Rattle.records.specs.Lists.{record_lengths, list_refusal};

use laws::Refusal;
pub use lists::RecordList;
use record::{EVERYDAY_BYTES, RECORD_BYTES, SEGMENT_BYTES};

// No list has more records.
pub const MOST_RECORDS: usize = 1000;

// Whether a record can be so long.
#[tactic(auto, unfolding(laws::specs::Tests::is_in, laws::specs::Tests::any))]
fn is_length(each: usize) -> bool
    ensures { result ≡ is_in each record_lengths }
{
    [EVERYDAY_BYTES, RECORD_BYTES, SEGMENT_BYTES].contains(&each)
}

// Whether a list can have so many bytes, whose records have `each`.
#[tactic(auto, using(crate::proofs::Cuts::one_of_lengths), unfolding(crate::specs::Lists::list_refusal, laws::specs::Tests::first_of))]
pub fn check(length: usize, each: usize) -> Result<(), Refusal>
    ensures { result ≡ answered_by (list_refusal length each) tt }
{
    if !is_length(each) || length % each != 0 {
        return Err(Refusal::Malformed);
    }
    if MOST_RECORDS < length / each {
        return Err(Refusal::Outside);
    }
    Ok(())
}
