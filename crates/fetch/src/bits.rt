// What the judge and the proposer say, as the bits of an answer.
// Stays: the arguments and the bits of two C calls; no From, since neither u64 nor an answer is a type of this crate.
ghost use Rattle.std.specs.Prelude.{◌≡◌};
ghost use Rattle.fetching.specs.Judging.{judge_call, propose_call};
ghost use Rattle.fetch.specs.Answers.{judgement_bits, proposal_bits};

use fetching::Judgement;

#[tactic(auto, using(crate::proofs::Few::named_few), unfolding(crate::specs::Answers::judgement_bits))]
pub fn judge_bits(bytes: &[u8], each: usize, set: u32) -> u64
    ensures { result ≡ judgement_bits (judge_call bytes.now each set) }
{
    match crate::judging::judge(bytes, each, set) {
        Ok(Judgement::Accepted) => 0x100,
        Ok(Judgement::NoSuchBit) => 0,
        Ok(Judgement::Lacking(i, k)) => (k as u64) * 0x1_0000 + (i as u64) * 0x1_0000_0000,
        Err(refusal) => u64::from(refusal),
    }
}

#[tactic(auto, unfolding(crate::specs::Answers::proposal_bits))]
pub fn propose_bits(bytes: &[u8], each: usize) -> u64
    ensures { result ≡ proposal_bits (propose_call bytes.now each) }
{
    match crate::judging::propose(bytes, each) {
        Ok(set) => u64::from(set) * 0x1_0000_0000,
        Err(refusal) => u64::from(refusal),
    }
}
