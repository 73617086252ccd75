// A session as the three words that a C caller keeps. Any words at all get an answer.
ghost use Rattle.std.specs.Prelude.{◌≡◌};
ghost use Rattle.session.specs.Sessions.{appended};
ghost use Rattle.session.specs.Words.{session_in, words_of, in_words, empty_words};

use crate::appends::Session;
use answers::answer_bits;

impl From<[u64; 3]> for Session {
    ghost from_gives = { λ words s. s ≡ session_in words };

    fn from(words: [u64; 3]) -> Session {
        Session {
            used: words[0] as usize,
            events: words[1],
            unknown: words[2],
        }
    }
}

impl From<Session> for [u64; 3] {
    ghost from_gives = { λ s words. words ≡ words_of s };

    fn from(s: Session) -> [u64; 3] {
        [s.used as u64, s.events, s.unknown]
    }
}

// Stays: bytes, file and log, as the C call has them.
pub fn append_words(session: &mut [u64; 3], bytes: &[u8], file: &[u8], log: &mut [u8]) -> u64
    ensures { (result, (session.new, log.new))
        ≡ in_words (appended bytes.now file.now (session_in session.old, log.old)) }
{
    let appended = Session::from(*session).append(bytes, file, log);
    *session = appended.session.into();
    answer_bits(appended.answer)
}

// Stays: the C interface, machhurel_reset answers this number.
pub fn reset_words(session: &mut [u64; 3]) -> u64
    ensures { (result, session.new) ≡ empty_words }
{
    *session = Session::empty().into();
    0
}
