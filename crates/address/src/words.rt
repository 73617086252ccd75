// Numbers of 64 bits, modulo two to the 64.
ghost use Rattle.std.specs.Prelude.{◌≡◌, ◌*◌, ◌%◌, ◌^◌};
ghost use Rattle.definition.specs.Addresses.{signed32, low_if};

// A number times a byte, by its two halves of 32 bits: neither product overflows, and the upper is cut to 32 bits.
#[tactic(auto, using(crate::proofs::Halves::times_halves))]
pub fn times(a: u64, scale: u8) -> u64
    ensures { result ≡ a * scale % 2 ^ 64 }
{
    let k = scale as u64;
    let low = a % 0x1_0000_0000 * k;
    let high = a / 0x1_0000_0000 * k % 0x1_0000_0000;
    low.wrapping_add(high * 0x1_0000_0000)
}

// The low 32 bits, sign-extended.
#[tactic(auto, using(crate::proofs::Signs::signed_low, crate::proofs::Signs::signed_high))]
pub fn sign_extended(disp: u64) -> u64
    ensures { result ≡ signed32 disp }
{
    let low = disp % 0x1_0000_0000;
    if low < 0x8000_0000 {
        low
    } else {
        low + 0xFFFF_FFFF_0000_0000
    }
}

// The low 32 bits of an address that is cut.
pub fn low_if(short: bool, a: u64) -> u64
    ensures { result ≡ low_if short a }
{
    if short { a % 0x1_0000_0000 } else { a }
}
