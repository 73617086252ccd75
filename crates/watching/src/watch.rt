// A watched variable and what a trace did to it so far.
ghost use Rattle.std.specs.Prelude.{◌≡◌, ◌<◌, cond};
ghost use Rattle.watching.specs.Traces.{most_pairs, fresh, new_of, further, step_of};

use crate::tallies::{Tally, tally_log};
use crate::verdicts::Variable;
use crate::watched::Watched;
use definition::Answer;
use laws::Refusal;
use visiting::MOST_BYTES;

// A watch takes no more pairs.
pub const MOST_PAIRS: u64 = 1000000;

// The pairs taken so far, their write events by verdict, the pairs that visiting refused, and by its number in the trace the first pair
// with a part write and the last with a whole one.
#[derive(Clone, Copy)]
pub struct Watch {
    pub variable: Variable,
    pub pairs: u64,
    pub tally: Tally,
    pub refused: u64,
    pub first: Option<u64>,
    pub last: Option<u64>,
}

// What a step gives: what visiting the pair answered, its own write events by verdict, and the watch after it.
#[derive(Clone, Copy)]
pub struct Stepped {
    pub visit: Answer,
    pub tally: Tally,
    pub watch: Watch,
}

#[tactic(auto, unfolding(crate::specs::Traces::fresh))]
fn fresh(variable: Variable) -> Watch
    ensures { result ≡ fresh variable }
{
    Watch {
        variable,
        pairs: 0,
        tally: Tally::default(),
        refused: 0,
        first: None,
        last: None,
    }
}

impl Watch {
    // A length of 1 to 8 bytes; another is refused 2.
    // Stays: address and length, as the C call has them; they are one Variable at once.
    #[tactic(auto, unfolding(crate::specs::Traces::new_of))]
    pub fn new(address: u64, length: u64) -> Result<Watch, Refusal>
        ensures { result ≡ new_of address length }
    {
        let watched = Watched::new(Variable { address, length })?;
        Ok(fresh(watched.variable))
    }

    // One pair more, refused or not, with its own tally.
    #[tactic(auto, unfolding(crate::specs::Traces::further))]
    fn further(self, refused: bool, t: Tally) -> Watch
        requires { self.pairs < most_pairs }
        ensures { result ≡ further self (cond refused 1 0) t }
    {
        Watch {
            variable: self.variable,
            pairs: self.pairs + 1,
            tally: self.tally.plus(t),
            refused: self.refused.wrapping_add(u64::from(refused)),
            first: self.first.or((0 < t.part).then_some(self.pairs)),
            last: (0 < t.whole).then_some(self.pairs).or(self.last),
        }
    }

    // The next pair of the trace. It is refused 2 past the limit, and where no variable has the length, before it is looked at.
    #[tactic(auto, unfolding(crate::specs::Traces::step_of, crate::specs::Traces::is_taking))]
    pub fn step(self, bytes: &[u8], file: &[u8]) -> Result<Stepped, Refusal>
        ensures { result ≡ step_of self (bytes.now, file.now) }
    {
        let watched = Watched::new(self.variable)?;
        if MOST_PAIRS <= self.pairs {
            return Err(Refusal::Outside);
        }
        let mut log = [0u8; MOST_BYTES];
        let visit = visiting::visit_accesses(bytes, file, &mut log, 0);
        let Answer::Done(n) = visit else {
            let tally = Tally::default();
            return Ok(Stepped {
                visit,
                tally,
                watch: self.further(true, tally),
            });
        };
        let tally = tally_log(watched, &log[..n]);
        Ok(Stepped {
            visit,
            tally,
            watch: self.further(false, tally),
        })
    }
}
