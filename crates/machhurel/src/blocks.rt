// The call on a block of records: one register file, one log buffer and one answer buffer.
ghost use Rattle.std.specs.Prelude.{◌≡◌};
ghost use Rattle.block.specs.Blocks.{block_call};
ghost use Rattle.block.specs.Bits.{in_bits};

pub fn machhurel_block(
    records: &[u8],
    each: usize,
    file: &[u8],
    log: &mut [u8],
    start: usize,
    answers: &mut [u8],
) -> u64
    ensures { (result, (log.new, answers.new))
        ≡ in_bits (block_call each records.now file.now log.old start answers.old) }
{
    block::answer_block(records, each, file, log, start, answers)
}
