// A list of records that is not refused.
ghost use Rattle.std.specs.Prelude.{◌≡◌, ◌≢◌, ◌/◌, ◌≤◌, ◌<◌, length, MatchResult};
ghost use Rattle.laws.specs.Refusals.{refusal_named};
ghost use Rattle.records.specs.Lists.{most_records, list_refusal};

use laws::Refusal;
use std::slice::ChunksExact;

#[derive(Clone, Copy)]
pub struct RecordList<'a> {
    pub bytes: &'a [u8],
    pub each: usize,
    pub ghost listed: { list_refusal (length bytes.now) each ≡ 0 },
}

impl<'a> RecordList<'a> {
    ghost use Rattle.std.specs.Slice.Iter.{chunks_exact_rest, chunks_exact_size};

    // The records of `each` bytes one after the other.
    pub fn new(bytes: &'a [u8], each: usize) -> Result<RecordList<'a>, Refusal>
        ensures { MatchResult result
            (λ l. (l.bytes ≡ bytes.entry) × (l.each ≡ each) × (list_refusal (length bytes.now) each ≡ 0))
            (λ r. (list_refusal (length bytes.now) each ≢ 0) × (r ≡ refusal_named (list_refusal (length bytes.now) each))) }
    {
        crate::check(bytes.len(), each)?;
        Ok(RecordList { bytes, each })
    }

    // How many they are.
    pub fn count(self) -> usize
        ensures are { result ≡ length self.entry.bytes.now / self.entry.each }
        ensures few { result ≤ most_records }
    {
        self.bytes.len() / self.each
    }

    // One after the other.
    pub fn records(self) -> ChunksExact<'a, u8>
        ensures rest { chunks_exact_rest result ≡ self.entry.bytes.now }
        ensures size { chunks_exact_size result ≡ self.entry.each }
        ensures some { 0 < self.entry.each }
    {
        self.bytes.chunks_exact(self.each)
    }
}
