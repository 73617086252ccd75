// Sets of small numbers, as the bits of a word.
#![tactic(auto)]

ghost use Rattle.std.specs.Prelude.{◌≡◌, true, ◌<◌};
ghost use Rattle.laws.specs.Words.{bit};
ghost use Rattle.access.specs.Exceptions.{with_bit};

// Whether a number is in a set.
pub fn has(set: u32, k: u8) -> bool
    requires { k < 32 }
    ensures { result ≡ bit set k }
{
    laws::is_set(set, k)
}

// The set with a number in it.
pub fn with(set: u32, k: u8) -> u32
    requires { k < 32 }
    ensures { result ≡ with_bit set k true }
{
    access::with_bit(set, k, true)
}
