// The calls of a reader: a chunk is handed over, and the reader is closed. Any bytes in its places get an answer.
ghost use Rattle.std.specs.Prelude.{◌≡◌, true, false, ◌&&◌, ◌||◌, ◌+◌, ◌^◌, ◌≤◌, ◌<◌, length};
ghost use Rattle.laws.specs.Refusals.{refused_by};
ghost use Rattle.definition.specs.Limits.{most_bytes};
ghost use Rattle.definition.specs.Visits.{number_of, opcode_of, count_of};
ghost use Rattle.streams.specs.Cuts.{closing_of};
ghost use Rattle.streams.specs.Streams.{outcome_of};
ghost use Rattle.reader.specs.Held.{is_part, is_latest, reader_with, reader_in, checked, handing, handed_to, left_by};
ghost use Rattle.reader.specs.Items.{PartIn, closed};
ghost use Rattle.reader.specs.Chunks.{answering, calling, Going, Kept};

use crate::held::{Numbers, Reader};
use crate::items::{Brought, Taking};
use crate::kinds::{is_file, length_of};
use definition::Answer;
use laws::Refusal;
use streams::Call;
use visiting::MOST_BYTES;

// Whether bytes are none, or a part of an item.
#[tactic(auto, unfolding(crate::specs::Held::is_part))]
fn is_part(item: &[u8]) -> bool
    ensures { result ≡ is_part item.now }
{
    item.is_empty() || item.len() < length_of(item[0])
}

// Whether bytes are none, or a good file.
#[tactic(auto, unfolding(crate::specs::Held::is_latest))]
fn is_latest(file: &[u8]) -> bool
    ensures { result ≡ is_latest file.now }
{
    file.is_empty() || is_file(file)
}

// What a call answers: a log of so many bytes, or why it is refused.
fn answering(answer: Result<usize, Refusal>, finished: bool, taken: usize) -> Call
    ensures { result ≡ answering answer finished taken }
{
    let (number, n, opcode) = match answer {
        Ok(n) => (0, n, 0),
        Err(Refusal::Complex(opcode)) => (4, 0, opcode),
        Err(Refusal::NoRoom(n)) => (7, n, 0),
        Err(refusal) => (u8::from(refusal), 0, 0),
    };
    Call {
        number,
        finished,
        taken,
        n,
        opcode,
    }
}

// What visiting answered of a record.
fn visited(a: Answer, taken: usize) -> Call
    ensures { result ≡ calling (number_of a) true taken (count_of a) (opcode_of a) }
{
    let (number, n, opcode) = match a {
        Answer::Done(n) => (0, n, 0),
        Answer::Refused(number) => (number, 0, 0),
        Answer::Complex(opcode) => (4, 0, opcode),
        Answer::Short(n) => (7, n, 0),
    };
    Call {
        number,
        finished: true,
        taken,
        n,
        opcode,
    }
}

impl Reader {
    fn is_sound(&self) -> bool
        ensures { result ≡ (is_part self.now.kept && is_latest self.now.file) }
    {
        is_part(self.kept.bytes()) && is_latest(self.file.bytes())
    }

    // A stopped reader, where the bytes are none of a reader.
    #[tactic(auto, using(crate::proofs::Sound::checks))]
    fn check(&mut self)
        ensures same { reader_with self.new ≡ checked self.old }
        ensures going { Going self.new }
    {
        if !self.is_sound() {
            self.halt();
        }
    }

    // What a chunk brought, answered.
    // Stays: no switch on steps but a match on the cases of an enum.
    #[tactic(auto, using(crate::proofs::Replies::brought_quietly))]
    fn answer(&mut self, t: Taking, log: &mut [u8], start: usize) -> Call
        requires going { self.old.stopped ≡ false }
        requires room { start + most_bytes ≤ length log.old }
        ensures answers { left_by result self.new log.new ≡ handing (outcome_of t.taken (closed t self.old)) log.old start }
        ensures count { result.n < 2 ^ 32 }
    {
        match t.brought {
            Brought::Nothing => answering(Ok(0), false, t.taken),
            Brought::Unknown => {
                self.kept.clear();
                self.stopped = true;
                answering(Err(Refusal::Malformed), false, t.taken)
            }
            Brought::BadFile => {
                self.kept.clear();
                answering(Err(Refusal::BadFile), true, t.taken)
            }
            Brought::Record => {
                let a = visiting::visit_accesses(self.kept.bytes(), self.file.bytes(), log, start);
                self.kept.clear();
                visited(a, t.taken)
            }
        }
    }

    // A chunk is handed over, with a log buffer from a start on. The call ends with the first record or bad file that finishes, with an
    // unknown kind, or when the chunk is taken.
    // Stays: a log and a start, as in the C call; the start may lie past the log's end, and `handed_to` says what is answered then.
    #[tactic(auto, using(crate::proofs::Calls::has_room))]
    pub fn read_chunk(&mut self, chunk: &[u8], log: &mut [u8], start: usize) -> Call
        ensures answers { left_by result self.new log.new ≡ handed_to (checked self.old) chunk.now log.old start }
        ensures count { result.n < 2 ^ 32 }
    {
        self.check();
        if self.stopped {
            return answering(Err(Refusal::Malformed), false, 0);
        }
        if laws::lacks_room(MOST_BYTES, start, log.len()) {
            return answering(Err(Refusal::NoRoom(MOST_BYTES)), false, 0);
        }
        let t = self.take_items(chunk);
        self.answer(t, log, start)
    }

    // What closing answers: a stopped reader is refused, and so is one inside an item.
    #[tactic(auto, using(crate::proofs::Sound::closes))]
    pub fn close(&self) -> Result<(), Refusal>
        ensures { refused_by result ≡ closing_of (checked self.now) }
    {
        if self.stopped || !self.is_sound() {
            return Err(Refusal::Malformed);
        }
        if self.kept.bytes().is_empty() {
            Ok(())
        } else {
            Err(Refusal::Cut)
        }
    }
}

// The reader that numbers and the bytes of two places hold; a stopped one where they hold none.
#[tactic(auto, using(crate::proofs::Sound::kept))]
pub fn checked(r: Numbers, item: &[u8], file: &[u8]) -> Reader
    ensures same { reader_with result ≡ reader_in r item.now file.now }
    ensures kept { Kept result }
{
    let mut reader = Reader::of(r, item, file);
    reader.check();
    reader
}
