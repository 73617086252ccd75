// Numbers in bytes, lowest byte first: what every layer above reads and writes. The compiler makes one load or one store of each.
#![tactic(auto)]

mod refusals; // refusals.rt: why a call is refused, and its number

ghost use Rattle.std.specs.Prelude.{ℕ, ◌≡◌, ◌++◌, ◌+◌, ◌≤◌, ◌<◌, length, drop, slice_index};
ghost use Rattle.laws.specs.Lending.{lacks_room};
ghost use Rattle.laws.specs.Words.{number_at, little, bit};

pub use refusals::Refusal;

// Stays: a reader for each width. One with a const parameter would take its bytes by `first_chunk`, which tests the length once more.

// The number of two bytes from place i on.
#[tactic(auto, using(crate::proofs::Bytes::taken_2))]
pub fn u16_at(b: &[u8], i: usize) -> u16
    requires { i + 2 ≤ length b.now }
    ensures { result ≡ number_at b.now i 2 }
{
    u16::from_le_bytes([b[i], b[i + 1]])
}

// The number of four bytes from place i on.
#[tactic(auto, using(crate::proofs::Bytes::taken_4))]
pub fn u32_at(b: &[u8], i: usize) -> u32
    requires { i + 4 ≤ length b.now }
    ensures { result ≡ number_at b.now i 4 }
{
    u32::from_le_bytes([b[i], b[i + 1], b[i + 2], b[i + 3]])
}

// The number of eight bytes from place i on.
#[tactic(auto, using(crate::proofs::Bytes::taken_8))]
pub fn u64_at(b: &[u8], i: usize) -> u64
    requires { i + 8 ≤ length b.now }
    ensures { result ≡ number_at b.now i 8 }
{
    u64::from_le_bytes([
        b[i],
        b[i + 1],
        b[i + 2],
        b[i + 3],
        b[i + 4],
        b[i + 5],
        b[i + 6],
        b[i + 7],
    ])
}

// Stays: a writer for each width. `to_le_bytes` belongs to each integer and to no trait: one for all needs a trait, and a body for each.

// The four bytes of v, to the front of what is lent.
#[tactic(auto, using(crate::proofs::Bytes::given_4))]
pub fn put_u32(out: &mut [u8], v: u32)
    requires { 4 ≤ length out.old }
    ensures { out.new ≡ little 4 v ++ drop 4 out.old }
{
    out[..4].copy_from_slice(&v.to_le_bytes());
}

// The eight bytes of v, to the front of what is lent.
#[tactic(auto, using(crate::proofs::Bytes::given_8))]
pub fn put_u64(out: &mut [u8], v: u64)
    requires { 8 ≤ length out.old }
    ensures { out.new ≡ little 8 v ++ drop 8 out.old }
{
    out[..8].copy_from_slice(&v.to_le_bytes());
}

// Whether so many bytes have no room from a start to the end of a buffer.
pub fn lacks_room(n: usize, start: usize, end: usize) -> bool
    ensures { result ≡ lacks_room n start end }
{
    end < start || end - start < n
}

// Whether bit k of a number is set.
// Stays: k < 32 is a fact about one number, here, in `access` and in `sets`; a type that holds it would be built at each call.
#[tactic(auto, unfolding(crate::specs::Words::bit))]
pub fn is_set(v: u32, k: u8) -> bool
    requires { k < 32 }
    ensures { result ≡ bit v k }
{
    (v >> k) % 2 == 1
}

// So many bytes, all of them 0. The `ensures` spares a caller a look at each of them.
pub fn zeros<const N: usize>() -> [u8; N]
    ensures long { N ≡ length result }
    ensures zero { (k : ℕ) → slice_index result k ≡ 0 }
{
    [0; N]
}
