// The events of a log, counted.
ghost use Rattle.std.specs.Prelude.{◌≡◌, ◌+◌, ◌^◌, ◌<◌};
ghost use Rattle.event.specs.Wholes.{events_in, whole_of};
ghost use Rattle.session.specs.Sessions.{unknown_in, no_counts, counting, counts_of};

use definition::{Event, Reading};
use event::read_event;

// How many events a log has, and how many of them are memory events at unknown addresses.
#[derive(Clone, Copy)]
pub(crate) struct Counts {
    pub(crate) events: u64,
    pub(crate) unknown: u64,
}

fn unknown_in(e: Event) -> u64
    ensures { result ≡ unknown_in e }
{
    u64::from(matches!(e, Event::UnknownRead(_) | Event::UnknownWrite(_)))
}

impl Counts {
    // One event more.
    fn counting(self, e: Event) -> Counts
        requires { (self.events + 1 < 2 ^ 64) × (self.unknown + 1 < 2 ^ 64) }
        ensures { result ≡ counting e self }
    {
        Counts {
            events: self.events + 1,
            unknown: self.unknown + unknown_in(e),
        }
    }
}

// The counts of a log's events, as far as it reads.
// Stays: document 01's form, a walk by let .. else; a fold asks that its step may be called at any counts, and counting asks that they fit.
pub(crate) fn count_log(log: &[u8]) -> Counts
    ensures { result ≡ counts_of (events_in (whole_of log.now)) }
{
    let mut at = 0;
    let mut counts = Counts {
        events: 0,
        unknown: 0,
    };
    loop {
        let Reading::Found(e, next) = read_event(log, at) else {
            return counts;
        };
        counts = counts.counting(e);
        at = next;
    }
}
