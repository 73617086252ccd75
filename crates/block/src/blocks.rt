// The call on a block of records.
ghost use Rattle.std.specs.Prelude.{◌≡◌, ◌*◌, ◌/◌, ◌≤◌, length};
ghost use Rattle.registers.specs.Files.{file_of};
ghost use Rattle.registers.specs.Told.{file_refusal};
ghost use Rattle.records.specs.Lists.{records_in};
ghost use Rattle.block.specs.Blocks.{answer_bytes, block_from, told_from, block_call};

use crate::fours::{ANSWER_BYTES, is_seven, logged_by, put_answer};
use laws::Refusal;
use records::RecordList;
use visiting::visit_accesses;

// What a block answers: how many records stand before the first that is refused 7, which are all where none is; and how many bytes of
// log were written.
// Stays: how many bytes were written is what the C call answers.
#[derive(Clone, Copy)]
pub struct Blocked {
    pub count: usize,
    pub written: usize,
}

// Each record under the one file. The place is where the next log goes.
// Stays: file, log, start and answers one by one, as the C call lends them.
fn visit_each(
    list: RecordList<'_>,
    file: &[u8],
    log: &mut [u8],
    start: usize,
    answers: &mut [u8],
) -> Blocked
    requires { (answer_bytes * (length list.bytes.now / list.each) ≤ length answers.old) × (file_refusal file.now ≡ 0) }
    ensures { (result, (log.new, answers.new))
        ≡ told_from start answers.old 0 (block_from (file_of file.now) (records_in list.entry.each list.entry.bytes.now) log.old start) }
{
    let mut place = start;
    for (i, record) in list.records().enumerate() {
        let a = visit_accesses(record, file, log, place);
        // Stays: document 01's form, a writer is lent the part of the buffer behind what was written so far.
        put_answer(&mut answers[ANSWER_BYTES * i..], a);
        if is_seven(a) {
            return Blocked {
                count: i,
                written: place - start,
            };
        }
        place = place + logged_by(a);
    }
    Blocked {
        count: list.count(),
        written: place - start,
    }
}

// The whole call is refused 1 or 2 for its records, 3 for the file, 7 for the room of the answers, without saying how much they need.
// Stays: its arguments are those of the C call, one by one.
pub fn visit_block(
    records: &[u8],
    each: usize,
    file: &[u8],
    log: &mut [u8],
    start: usize,
    answers: &mut [u8],
) -> Result<Blocked, Refusal>
    ensures { (result, (log.new, answers.new))
        ≡ block_call each records.now file.now log.old start answers.old }
{
    let list = RecordList::new(records, each)?;
    registers::check(file)?;
    if answers.len() < ANSWER_BYTES * list.count() {
        return Err(Refusal::NoRoom(0));
    }
    Ok(visit_each(list, file, log, start, answers))
}
