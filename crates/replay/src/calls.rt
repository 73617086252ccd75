// The calls of a case, each held to what the list says of it.
ghost use Rattle.std.specs.Prelude.{◌≡◌, ℕ, ◌<◌, true, length, slice_index};
ghost use Rattle.replay.specs.Left.{left_at};

use crate::call::Call;
use crate::cases::Head;

// No call answers this, and no list of the oracle holds it.
// Stays: an Option would tell a number of no call from a list that holds this beside it, which today is no difference.
const NO_ANSWER: u64 = u64::MAX;

// Whether the call answers what it must, and leaves what is lent as it must. `subject` is a record or a log. The front of the buffer is
// lent. What stands behind it is looked at too.
pub(crate) fn is_same(head: Head, subject: &[u8], file: &[u8], written: &[u8]) -> bool {
    let mut buffer = [0xA5; 512];
    let start = head.start as usize;
    let Some(lent) = buffer.get_mut(..head.room as usize) else {
        return false;
    };
    answer(head.call, subject, file, lent, start) == head.answer && is_left(&buffer, start, written)
}

// Stays: no switch on steps but a match on the cases of an enum; the calls differ in what they take.
fn answer(call: Option<Call>, subject: &[u8], file: &[u8], lent: &mut [u8], start: usize) -> u64 {
    match call {
        Some(Call::Visit) => machhurel::machhurel_visit(subject, file, lent, start),
        Some(Call::Listing) => machhurel::machhurel_listing(subject, lent, start),
        Some(Call::Digest) => machhurel::machhurel_digest(subject),
        Some(Call::Privilege) => machhurel::machhurel_privilege(subject),
        Some(Call::Exceptions) => machhurel::machhurel_exceptions(subject),
        Some(Call::Event) => machhurel::machhurel_event(subject, start),
        None => NO_ANSWER,
    }
}

// Whether the bytes written stand from the start on, and every other byte is as it was lent, behind the lent part too.
// Stays: each byte is held to what it must be; three slices compared would first need the start and the end inside the buffer.
fn is_left(buffer: &[u8], start: usize, written: &[u8]) -> bool
    ensures { result ≡ true → (k : ℕ) → k < length buffer.now → slice_index buffer.now k ≡ left_at start written.now k }
{
    for (i, b) in buffer.iter().enumerate() {
        if *b != left_at(start, written, i) {
            return false;
        }
    }
    true
}

fn left_at(start: usize, written: &[u8], i: usize) -> u8
    ensures { result ≡ left_at start written.now i }
{
    if i < start {
        return 0xA5;
    }
    if i - start < written.len() {
        return written[i - start];
    }
    0xA5
}
