// The calls on a reader of a stream, which is kept as 48 words. Any words at all get an answer.
ghost use Rattle.std.specs.Prelude.{◌≡◌};
ghost use Rattle.reader.specs.Held.{handed_to};
ghost use Rattle.reader_words.specs.Words.{reader_by, handed_words, fresh_words, closed_words};

pub fn machhurel_reader_new(reader: &mut [u64; 48]) -> u64
    ensures { (result, reader.new) ≡ fresh_words }
{
    reader_words::new_words(reader)
}

pub fn machhurel_reader_read(
    reader: &mut [u64; 48],
    chunk: &[u8],
    log: &mut [u8],
    start: usize,
    taken: &mut u64,
) -> u64
    ensures { (result, taken.new, reader.new, log.new)
        ≡ handed_words (handed_to (reader_by reader.old) chunk.now log.old start) }
{
    reader_words::read_words(reader, chunk, log, start, taken)
}

pub fn machhurel_reader_close(reader: &mut [u64; 48]) -> u64
    ensures { (result, reader.new) ≡ closed_words (reader_by reader.old) }
{
    reader_words::close_words(reader)
}
