// The judge and the proposer, over the bytes of a list of records.
ghost use Rattle.std.specs.Prelude.{◌≡◌, ℕ, true, false, ◌<◌, MatchOption};
ghost use Rattle.records.specs.Lists.{records_in};
ghost use Rattle.fetching.specs.Judging.{set_bits, judge_from, proposed, judge_call, propose_call};
ghost use Rattle.fetch.specs.Parts.{lacking};

use crate::needs::with_record;
use fetching::Judgement;
use laws::Refusal;
use records::RecordList;

// A set has so many bits.
const SET_BITS: u8 = 19;

// Two to the power of that.
const SETS: u32 = 0x8_0000;

// A bit that is needed and not in the set.
fn is_lacking(needs: u32, set: u32, k: u8) -> bool
    requires { k < set_bits }
    ensures { result ≡ lacking needs set k }
{
    sets::has(needs, k) && !sets::has(set, k)
}

// The lowest of these.
fn first_lacking(needs: u32, set: u32) -> Option<u8>
    ensures { MatchOption result
        ((k : ℕ) → k < set_bits → lacking needs set k ≡ false)
        (λ k. (k < set_bits) × (lacking needs set k ≡ true) × ((j : ℕ) → j < k → lacking needs set j ≡ false)) }
{
    (0..SET_BITS).find(|k| is_lacking(needs, set, *k))
}

fn judge_records(list: RecordList<'_>, set: u32) -> Judgement
    ensures { result ≡ judge_from set 0 (records_in list.entry.each list.entry.bytes.now) }
{
    for (i, record) in list.records().enumerate() {
        if let Some(k) = first_lacking(with_record(0, record), set) {
            return Judgement::Lacking(i, k);
        }
    }
    Judgement::Accepted
}

fn propose_records(list: RecordList<'_>) -> u32
    ensures { result ≡ proposed (records_in list.entry.each list.entry.bytes.now) }
{
    let mut set = 0;
    for record in list.records() {
        set = with_record(set, record);
    }
    set
}

// Stays: bytes and each, as the C calls have them; inside, the two are a RecordList.
pub fn judge(bytes: &[u8], each: usize, set: u32) -> Result<Judgement, Refusal>
    ensures { result ≡ judge_call bytes.now each set }
{
    let list = RecordList::new(bytes, each)?;
    if set < SETS {
        Ok(judge_records(list, set))
    } else {
        Ok(Judgement::NoSuchBit)
    }
}

pub fn propose(bytes: &[u8], each: usize) -> Result<u32, Refusal>
    ensures { result ≡ propose_call bytes.now each }
{
    let list = RecordList::new(bytes, each)?;
    Ok(propose_records(list))
}
