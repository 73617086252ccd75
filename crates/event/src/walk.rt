// A whole log, event by event.
ghost use Rattle.std.specs.Prelude.{◌≡◌};
ghost use Rattle.event.specs.Counts.{counted_of, end_of};

use crate::reader::read_event;
use definition::Reading;
use laws::Refusal;

// How many events a log has, or why it does not read whole.
// Stays: document 01's form, a log walk that takes each answer apart by let .. else; a fold would not say why the log ends.
pub fn count_events(log: &[u8]) -> Result<usize, Refusal>
    ensures { result ≡ counted_of log.now }
{
    let mut at = 0;
    let mut n = 0;
    loop {
        let r = read_event(log, at);
        let Reading::Found(_, next) = r else {
            return ended(r, n);
        };
        at = next;
        n = n + 1;
    }
}

// The answer where reading goes no further, after n events.
fn ended(r: Reading, n: usize) -> Result<usize, Refusal>
    ensures { result ≡ end_of r n }
{
    match r {
        Reading::Found(_, _) => Ok(n),
        Reading::Bad(refusal) => Err(refusal),
        Reading::Finished => Ok(n),
    }
}
