// The judge of a set of registers for a list of records, and the proposer of one.
ghost use Rattle.std.specs.Prelude.{◌≡◌};
ghost use Rattle.fetching.specs.Judging.{judge_call, propose_call};
ghost use Rattle.fetch.specs.Answers.{judgement_bits, proposal_bits};

pub fn machhurel_fetch_judge(bytes: &[u8], each: usize, set: u32) -> u64
    ensures { result ≡ judgement_bits (judge_call bytes.now each set) }
{
    fetch::judge_bits(bytes, each, set)
}

pub fn machhurel_fetch_propose(bytes: &[u8], each: usize) -> u64
    ensures { result ≡ proposal_bits (propose_call bytes.now each) }
{
    fetch::propose_bits(bytes, each)
}
