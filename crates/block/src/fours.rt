// The answer of a record of a block: what its visit answered, in four bytes.
ghost use Rattle.std.specs.Prelude.{◌≡◌, ◌∷◌, ◌++◌, ◌≤◌, ◌<◌, length, drop};
ghost use Rattle.laws.specs.Words.{little};
ghost use Rattle.definition.specs.Visits.{count_of};
ghost use Rattle.block.specs.Blocks.{is_seven, logged_by, answer_bytes, four_of};

use definition::Answer;

// The bytes of an answer.
pub const ANSWER_BYTES: usize = 4;

// The visit is refused 7.
pub(crate) fn is_seven(a: Answer) -> bool
    ensures { result ≡ is_seven a }
{
    match a {
        Answer::Refused(number) => number == 7,
        Answer::Short(_) => true,
        _ => false,
    }
}

// The bytes of log that were written.
pub(crate) fn logged_by(a: Answer) -> usize
    ensures { result ≡ logged_by a }
{
    match a {
        Answer::Done(n) => n,
        _ => 0,
    }
}

// The opcode is little-endian.
// Stays: the four bytes are the C interface's, numbers as they lie in the buffer.
fn put_four(out: &mut [u8], number: u8, count: u8, opcode: u16)
    requires { answer_bytes ≤ length out.old }
    ensures { out.new ≡ (number ∷ count ∷ little 2 opcode) ++ drop answer_bytes out.old }
{
    out[0] = number;
    out[1] = count;
    out[2] = (opcode % 256) as u8;
    out[3] = (opcode / 256 % 256) as u8;
}

// At the front of what is lent.
pub(crate) fn put_answer(out: &mut [u8], a: Answer)
    requires { (answer_bytes ≤ length out.old) × (count_of a < 256) }
    ensures { out.new ≡ four_of a ++ drop answer_bytes out.old }
{
    match a {
        Answer::Done(n) => put_four(out, 0, n as u8, 0),
        Answer::Refused(number) => put_four(out, number, 0, 0),
        Answer::Complex(opcode) => put_four(out, 4, 0, opcode),
        Answer::Short(n) => put_four(out, 7, n as u8, 0),
    }
}
