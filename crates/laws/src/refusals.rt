// Why a call is refused.
ghost use Rattle.std.specs.Prelude.{◌≡◌};
ghost use Rattle.laws.specs.Refusals.{refusal_number};

// In the order of their numbers, from 1 on: bytes that are no record or no event, or that begin no item; a number outside its table; a
// bad register file; a complex instruction, with its opcode; an access that names no register; memory of no size; too little room, with
// the bytes that are needed; a stream that ends inside an item; an opcode without a digest; a sheet that takes no more logs.
#[derive(Clone, Copy, PartialEq, Eq)]
pub enum Refusal {
    Malformed,
    Outside,
    BadFile,
    Complex(u16),
    Nameless,
    Sizeless,
    NoRoom(usize),
    Cut,
    Unlisted,
    Full,
}

// The number that the documents give it.
impl From<Refusal> for u8 {
    ghost from_gives = { λ r n. n ≡ refusal_number r };

    fn from(refusal: Refusal) -> u8 {
        match refusal {
            Refusal::Malformed => 1,
            Refusal::Outside => 2,
            Refusal::BadFile => 3,
            Refusal::Complex(_) => 4,
            Refusal::Nameless => 5,
            Refusal::Sizeless => 6,
            Refusal::NoRoom(_) => 7,
            Refusal::Cut => 8,
            Refusal::Unlisted => 9,
            Refusal::Full => 10,
        }
    }
}

impl From<Refusal> for u64 {
    ghost from_gives = { λ r n. n ≡ refusal_number r };

    fn from(refusal: Refusal) -> u64 {
        u64::from(u8::from(refusal))
    }
}
