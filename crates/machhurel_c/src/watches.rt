// The C interface of a watch: a C caller keeps it as ten words. Any words at all get an answer.
ghost use Rattle.std.specs.Prelude.{◌≡◌};
ghost use Rattle.watching.specs.Verdicts.{variable, name_at};
ghost use Rattle.watching.specs.Traces.{new_of, step_of, after_step};
ghost use Rattle.watch_words.specs.Bits.{stepped_bits, naming_bits};
ghost use Rattle.watch_words.specs.Words.{watch_in, words_of, new_words};

#[unsafe(no_mangle)]
pub extern "C" fn machhurel_watch_new(watch: &mut [u64; 10], address: u64, length: u64) -> u64
    ensures { (result, watch.new) ≡ new_words (new_of address length) watch.old }
{
    machhurel::machhurel_watch_new(watch, address, length)
}

#[unsafe(no_mangle)]
pub extern "C" fn machhurel_watch_step(watch: &mut [u64; 10], bytes: &[u8], file: &[u8]) -> u64
    ensures { (watch.new ≡ words_of (after_step (watch_in watch.old) (bytes.now, file.now)))
        × (result ≡ stepped_bits (step_of (watch_in watch.old) (bytes.now, file.now))) }
{
    machhurel::machhurel_watch_step(watch, bytes, file)
}

#[unsafe(no_mangle)]
pub extern "C" fn machhurel_verdict(address: u64, length: u64, log: &[u8], at: usize) -> u64
    ensures { result ≡ naming_bits at (name_at (variable address length) log.now at) }
{
    machhurel::machhurel_verdict(address, length, log, at)
}
