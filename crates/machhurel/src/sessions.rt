// The calls on a log session, which is kept as three words; the buffer is lent. Any words at all get an answer.
ghost use Rattle.std.specs.Prelude.{◌≡◌};
ghost use Rattle.session.specs.Sessions.{appended};
ghost use Rattle.session.specs.Words.{session_in, words_of, in_words, empty_words};

pub fn machhurel_append(session: &mut [u64; 3], bytes: &[u8], file: &[u8], log: &mut [u8]) -> u64
    ensures { (result, (session.new, log.new))
        ≡ in_words (appended bytes.now file.now (session_in session.old, log.old)) }
{
    session::append_words(session, bytes, file, log)
}

pub fn machhurel_reset(session: &mut [u64; 3]) -> u64
    ensures { (result, session.new) ≡ empty_words }
{
    session::reset_words(session)
}
