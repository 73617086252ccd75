// The C interface of a log session: a C caller keeps it as three words, and lends the buffer. Any words at all get an answer.
ghost use Rattle.std.specs.Prelude.{◌≡◌};
ghost use Rattle.session.specs.Sessions.{appended};
ghost use Rattle.session.specs.Words.{session_in, in_words, empty_words};

#[unsafe(no_mangle)]
pub extern "C" fn machhurel_append(
    session: &mut [u64; 3],
    bytes: &[u8],
    file: &[u8],
    log: &mut [u8],
) -> u64
    ensures { (result, (session.new, log.new))
        ≡ in_words (appended bytes.now file.now (session_in session.old, log.old)) }
{
    machhurel::machhurel_append(session, bytes, file, log)
}

#[unsafe(no_mangle)]
pub extern "C" fn machhurel_reset(session: &mut [u64; 3]) -> u64
    ensures { (result, session.new) ≡ empty_words }
{
    machhurel::machhurel_reset(session)
}
