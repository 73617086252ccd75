// Write events counted by verdict.
ghost use Rattle.std.specs.Prelude.{◌≡◌, ◌+◌, ◌^◌, ◌<◌, map};
ghost use Rattle.watching.specs.Verdicts.{verdict_of};
ghost use Rattle.watching.specs.Tallies.{counting, tally_of, total, added};
ghost use Rattle.watching.specs.Walks.{events_in};

use crate::verdicts::Verdict;
use crate::watched::Watched;
use definition::Reading;
use event::read_event;

// How many write events got each verdict.
#[derive(Clone, Copy, Default)]
pub struct Tally {
    pub unknown: u64,
    pub none: u64,
    pub part: u64,
    pub whole: u64,
}

impl Tally {
    // One verdict more.
    #[tactic(auto, unfolding(crate::specs::Tallies::counting))]
    fn counting(mut self, v: Verdict) -> Tally
        requires { total self + 1 < 2 ^ 64 }
        ensures { result ≡ counting v self }
    {
        match v {
            Verdict::NoWrite => {}
            Verdict::AddressUnknown => self.unknown += 1,
            Verdict::NoneTouched => self.none += 1,
            Verdict::PartTouched => self.part += 1,
            Verdict::WholeTouched => self.whole += 1,
        }
        self
    }

    // Two tallies together, modulo two to the 64.
    #[tactic(auto, using(crate::proofs::Sums::tally_is), unfolding(crate::specs::Tallies::added))]
    pub(crate) fn plus(self, t: Tally) -> Tally
        ensures { result ≡ added self t }
    {
        Tally {
            unknown: self.unknown.wrapping_add(t.unknown),
            none: self.none.wrapping_add(t.none),
            part: self.part.wrapping_add(t.part),
            whole: self.whole.wrapping_add(t.whole),
        }
    }
}

// The tally of a log's events, as far as it reads.
pub(crate) fn tally_log(v: Watched, log: &[u8]) -> Tally
    ensures { result ≡ tally_of (map (verdict_of v.variable) (events_in log.now)) }
{
    let mut at = 0;
    let mut t = Tally::default();
    // Stays: document 01's form, a log walk that takes each answer apart by let .. else.
    loop {
        let r = read_event(log, at);
        let Reading::Found(e, next) = r else {
            return t;
        };
        t = t.counting(v.verdict_on(e));
        at = next;
    }
}
