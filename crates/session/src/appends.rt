// A session by value. The buffer is not in it: it is lent to each append.
ghost use Rattle.std.specs.Prelude.{◌≡◌, ◌+◌, ◌≤◌, length, take, drop};
ghost use Rattle.event.specs.Wholes.{events_in, whole_of};
ghost use Rattle.session.specs.Sessions.{empty, further, appended};

use crate::counts::count_log;
use definition::Answer;

// How many bytes of the buffer are used, from its start on; how many events stand there; and how many of these are memory events at
// unknown addresses.
// Stays: the buffer is the caller's and is lent to each append, so only how much of it is used stands here.
#[derive(Clone, Copy)]
pub struct Session {
    pub used: usize,
    pub events: u64,
    pub unknown: u64,
}

// What an append gives: what visiting answered, and the session after it.
#[derive(Clone, Copy)]
pub struct Appended {
    pub answer: Answer,
    pub session: Session,
}

impl Session {
    // A session after its reset: any buffer does.
    pub fn empty() -> Session
        ensures { result ≡ empty }
    {
        Session {
            used: 0,
            events: 0,
            unknown: 0,
        }
    }

    // The n bytes behind those used are used too, and their events are counted: no other byte is read.
    #[tactic(auto, unfolding(crate::specs::Sessions::further))]
    fn further(self, n: usize, log: &[u8]) -> Session
        requires { self.used + n ≤ length log.now }
        ensures { result ≡ further self n (events_in (whole_of (take n (drop self.used log.now)))) }
    {
        let used = self.used;
        let end = used + n;
        let more = count_log(&log[used..end]);
        Session {
            used: end,
            events: self.events.wrapping_add(more.events),
            unknown: self.unknown.wrapping_add(more.unknown),
        }
    }

    // Visits a record under a file, with its log behind the bytes used. Refused, nothing changes.
    pub fn append(self, bytes: &[u8], file: &[u8], log: &mut [u8]) -> Appended
        ensures { (result.answer, (result.session, log.new)) ≡ appended bytes.now file.now (self, log.old) }
    {
        let answer = visiting::visit_accesses(bytes, file, log, self.used);
        let Answer::Done(n) = answer else {
            return Appended {
                answer,
                session: self,
            };
        };
        let after = self.further(n, log);
        Appended {
            answer,
            session: after,
        }
    }
}
