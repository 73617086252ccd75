// The calls that visit a record: the log goes to the lent buffer from a start on, or a refusal changes nothing.
ghost use Rattle.std.specs.Prelude.{◌≡◌, false, ◌≤◌, length};
ghost use Rattle.record.specs.Records.{record_refusal};
ghost use Rattle.definition.specs.Behaviors.{complex};
ghost use Rattle.definition.specs.Limits.{most_bytes};
ghost use Rattle.definition.specs.Refusals.{nameless, sizeless};
ghost use Rattle.definition.specs.Visits.{visit_under, visit_of};
ghost use Rattle.registers.specs.Files.{file_of};
ghost use Rattle.registers.specs.Told.{file_refusal};
ghost use Rattle.visiting.specs.Records.{first_refusal};
ghost use Rattle.visiting.specs.Laying.{Within, laid_out};

use definition::Answer;
use record::Record;
use refusals::{is_nameless, is_sizeless};
use registers::RegisterFile;

// No log is longer.
pub const MOST_BYTES: usize = 201;

// Refusals 4, 5 and 6 of a record after fix-ups, in their order.
#[tactic(auto, unfolding(crate::specs::Records::first_refusal, laws::specs::Tests::first_of))]
fn refusal_of(x: Record) -> u8
    ensures { result ≡ first_refusal (complex x) (nameless x) (sizeless x) false }
{
    if fixups::is_complex(x) {
        return 4;
    }
    if is_nameless(x) {
        return 5;
    }
    if is_sizeless(x) {
        return 6;
    }
    0
}

// A record that refusals 1, 2 and 9 passed, under a file that 3 passed, where the longest log has room.
fn visit_record(b: &[u8], file: &[u8], log: &mut [u8]) -> Answer
    requires { (record_refusal b.now ≡ 0) × (file_refusal file.now ≡ 0) × (most_bytes ≤ length log.old) }
    ensures { (result, log.new) ≡ visit_under b.now (file_of file.now) log.old 0 }
{
    let plain = Record::plain(b);
    let read = plain.completed(b);
    let x = fixups::fixed_up(read);
    let number = refusal_of(x);
    match number {
        0 => {
            let f = RegisterFile::parse(file);
            let at = address::resolve(f, x);
            Answer::Done(steps::put_log(log, b, x, at))
        }
        4 => Answer::Complex(x.opcode),
        _ => Answer::Refused(number),
    }
}

// What was written aside, laid into its place where it has room. Where it has none, the answer says how much it needs.
fn lay(answer: Answer, aside: &[u8], log: &mut [u8], start: usize) -> Answer
    requires { Within answer (length aside.now) }
    ensures { (result, log.new) ≡ laid_out answer aside.now log.old start }
{
    match answer {
        Answer::Done(n) => {
            if laws::lacks_room(n, start, log.len()) {
                return Answer::Short(n);
            }
            log[start..start + n].copy_from_slice(&aside[..n]);
            Answer::Done(n)
        }
        Answer::Refused(number) => Answer::Refused(number),
        Answer::Complex(opcode) => Answer::Complex(opcode),
        Answer::Short(n) => Answer::Short(n),
    }
}

// Where the longest log may have no room, it is written aside first, by the same call: so the writers are called at one place alone.
#[cycle(visit_accesses_visit_tight)]
fn visit_tight(b: &[u8], file: &[u8], log: &mut [u8], start: usize) -> Answer
    ensures { (result, log.new) ≡ visit_of b.now file.now log.old start }
{
    let mut aside = [0u8; MOST_BYTES];
    let answer = visit_accesses(b, file, &mut aside, 0);
    lay(answer, &aside, log, start)
}

// Stays: bytes, file, log and start, as the C call has them.
#[cycle(visit_accesses_visit_tight)]
pub fn visit_accesses(b: &[u8], file: &[u8], log: &mut [u8], start: usize) -> Answer
    ensures { (result, log.new) ≡ visit_of b.now file.now log.old start }
{
    if let Err(refusal) = record::check(b) {
        return Answer::Refused(u8::from(refusal));
    }
    if let Err(refusal) = registers::check(file) {
        return Answer::Refused(u8::from(refusal));
    }
    if laws::lacks_room(MOST_BYTES, start, log.len()) {
        return visit_tight(b, file, log, start);
    }
    visit_record(b, file, &mut log[start..])
}
