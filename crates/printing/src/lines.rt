// A line of one number, and of two. Each writer writes at the front of what is lent to it and answers how many bytes it wrote.
// Stays: document 01's form, a writer is lent the part of the buffer behind what was written so far.
ghost use Rattle.std.specs.Prelude.{◌≤◌, length};
ghost use Rattle.laws.specs.Lending.{size, Logged};
ghost use Rattle.decimal.specs.Words.{word_bytes};
ghost use Rattle.printing.specs.Texts.{around, pair_line, count_line};

use decimal::{put, put_decimal};

// A number with letters before and after it.
pub(crate) fn put_around(out: &mut [u8], before: &[u8], n: u64, after: &[u8]) -> usize
    requires { size word_bytes (around before.now n after.now) ≤ length out.old }
    ensures { Logged word_bytes (around before.now n after.now) out.old out.new result }
{
    let a = put(out, before);
    let b = a + put_decimal(&mut out[a..], n);
    b + put(&mut out[b..], after)
}

pub(crate) fn put_pair(out: &mut [u8], before: &[u8], m: u64, between: &[u8], n: u64) -> usize
    requires { size word_bytes (pair_line before.now m between.now n) ≤ length out.old }
    ensures { Logged word_bytes (pair_line before.now m between.now n) out.old out.new result }
{
    let a = put_around(out, before, m, between);
    a + put_around(&mut out[a..], b"", n, b"\n")
}

// The count of a number; none at zero.
pub(crate) fn put_count(out: &mut [u8], letter: &[u8], k: u64, n: u64) -> usize
    requires { size word_bytes (count_line letter.now k n) ≤ length out.old }
    ensures { Logged word_bytes (count_line letter.now k n) out.old out.new result }
{
    if n == 0 {
        return 0;
    }
    put_pair(out, letter, k, b" ", n)
}
