// A block's answer as a number: each part at its bit.
ghost use Rattle.std.specs.Prelude.{◌≡◌, ◌^◌, ◌<◌};
ghost use Rattle.block.specs.Blocks.{block_call, block_count, block_written};
ghost use Rattle.block.specs.Bits.{block_bits, in_bits};

use crate::blocks::{Blocked, visit_block};
use laws::Refusal;

// Stays: no From, which has no `requires`: both counts must lie in their bits.
fn block_bits(a: Result<Blocked, Refusal>) -> u64
    requires { (block_count a < 2 ^ 16) × (block_written a < 2 ^ 32) }
    ensures { result ≡ block_bits a }
{
    match a {
        Ok(b) => (b.count as u64) * 0x100 + (b.written as u64) * 0x1_0000_0000,
        Err(refusal) => u64::from(refusal),
    }
}

// Stays: its arguments are those of the C call, one by one.
pub fn answer_block(
    records: &[u8],
    each: usize,
    file: &[u8],
    log: &mut [u8],
    start: usize,
    answers: &mut [u8],
) -> u64
    ensures { (result, (log.new, answers.new))
        ≡ in_bits (block_call each records.now file.now log.old start answers.old) }
{
    block_bits(visit_block(records, each, file, log, start, answers))
}
