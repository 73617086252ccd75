// The calls of a reader over its words. Crate machhurel_c exports them as C.
ghost use Rattle.std.specs.Prelude.{◌≡◌, ◌^◌, ◌<◌};
ghost use Rattle.reader.specs.Held.{handed_to};
ghost use Rattle.reader_words.specs.Words.{reader_by, call_bits, handed_words, fresh_words, closed_words};

use crate::words::{hold, put_words};
use reader::Reader;
use streams::Call;

// Stays: no From, which has no `requires`: n must lie in its bits. `as` is for a usize, which has no From to u64.
fn call_bits(call: Call) -> u64
    requires { call.n < 2 ^ 32 }
    ensures { result ≡ call_bits call }
{
    u64::from(call.number)
        + u64::from(call.opcode) * 0x100
        + u64::from(call.finished) * 0x100_0000
        + (call.n as u64) * 0x1_0000_0000
}

// Stays: a number, as the C call answers it; so does `close_words`.
#[tactic(auto, using(crate::proofs::Holding::fresh_words_lem))]
pub fn new_words(reader: &mut [u64; 48]) -> u64
    ensures { (result, reader.new) ≡ fresh_words }
{
    *reader = [0; 48];
    0
}

// Stays: a log and a start, as the C call has them.
pub fn read_words(
    reader: &mut [u64; 48],
    chunk: &[u8],
    log: &mut [u8],
    start: usize,
    taken: &mut u64,
) -> u64
    ensures { (result, taken.new, reader.new, log.new)
        ≡ handed_words (handed_to (reader_by reader.old) chunk.now log.old start) }
{
    let mut held = Reader::halted();
    hold(&mut held, reader);
    let call = held.read_chunk(chunk, log, start);
    put_words(reader, &held);
    *taken = call.taken as u64;
    call_bits(call)
}

pub fn close_words(reader: &mut [u64; 48]) -> u64
    ensures { (result, reader.new) ≡ closed_words (reader_by reader.old) }
{
    let mut held = Reader::halted();
    hold(&mut held, reader);
    let closed = held.close();
    *reader = [0; 48];
    match closed {
        Ok(()) => 0,
        Err(refusal) => u64::from(refusal),
    }
}
