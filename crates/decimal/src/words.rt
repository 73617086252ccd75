// The pieces of a line. Each writer writes at the front of what is lent to it and answers how many bytes it wrote.
// Stays: document 01's form, and there is no heap, so the digits are no String.
ghost use Rattle.std.specs.Prelude.{◌∷◌, [], ◌≤◌, length};
ghost use Rattle.laws.specs.Lending.{size, Logged};
ghost use Rattle.decimal.specs.Words.{letters, decimal, word_bytes};

#[tactic(auto, using(crate::proofs::Sizes::letters_size, crate::proofs::Sizes::front_long))]
pub fn put(out: &mut [u8], t: &[u8]) -> usize
    requires { size word_bytes (letters t.now ∷ []) ≤ length out.old }
    ensures { Logged word_bytes (letters t.now ∷ []) out.old out.new result }
{
    let n = t.len();
    out[..n].copy_from_slice(t);
    n
}

pub fn put_decimal(out: &mut [u8], n: u64) -> usize
    requires { size word_bytes (decimal n ∷ []) ≤ length out.old }
    ensures { Logged word_bytes (decimal n ∷ []) out.old out.new result }
{
    let mut digits = [0u8; 20];
    let n = io::decimal(n, &mut digits);
    put(out, &digits[..n])
}
