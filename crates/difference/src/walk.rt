// Two logs side by side, event by event.
ghost use Rattle.std.specs.Prelude.{◌≡◌, ◌≤◌, length};
ghost use Rattle.event.specs.Wholes.{events_in, whole_of};
ghost use Rattle.difference.specs.Partings.{parting_at};

use crate::same::same_event;
use definition::Reading;

// Where the events end that both logs begin with, as far as both read. Equal events are equally long, so one place
// serves both logs.
// Stays: document 01's form, a log walk that takes each answer apart by let .. else.
pub fn shared_end(first: &[u8], second: &[u8]) -> usize
    ensures { (result ≡ parting_at (events_in (whole_of first.now)) (events_in (whole_of second.now)))
        × (result ≤ length second.now) }
{
    let mut at = 0;
    loop {
        let Reading::Found(d, _) = event::read_event(first, at) else {
            return at;
        };
        let Reading::Found(e, next) = event::read_event(second, at) else {
            return at;
        };
        if same_event(d, e) {
            at = next;
        } else {
            return at;
        }
    }
}
