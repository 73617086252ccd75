// The C interface of a reader of a stream: a C caller keeps it as 48 words. Any words at all get an answer.
ghost use Rattle.std.specs.Prelude.{◌≡◌};
ghost use Rattle.reader.specs.Held.{handed_to};
ghost use Rattle.reader_words.specs.Words.{reader_by, handed_words, fresh_words, closed_words};

#[unsafe(no_mangle)]
pub extern "C" fn machhurel_reader_new(reader: &mut [u64; 48]) -> u64
    ensures { (result, reader.new) ≡ fresh_words }
{
    machhurel::machhurel_reader_new(reader)
}

#[unsafe(no_mangle)]
pub extern "C" fn machhurel_reader_read(
    reader: &mut [u64; 48],
    chunk: &[u8],
    log: &mut [u8],
    start: usize,
    taken: &mut u64,
) -> u64
    ensures { (result, taken.new, reader.new, log.new)
        ≡ handed_words (handed_to (reader_by reader.old) chunk.now log.old start) }
{
    machhurel::machhurel_reader_read(reader, chunk, log, start, taken)
}

#[unsafe(no_mangle)]
pub extern "C" fn machhurel_reader_close(reader: &mut [u64; 48]) -> u64
    ensures { (result, reader.new) ≡ closed_words (reader_by reader.old) }
{
    machhurel::machhurel_reader_close(reader)
}
