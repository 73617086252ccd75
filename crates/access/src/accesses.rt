// An access as two bits, and its read and write parts.
ghost use Rattle.std.specs.Prelude.{◌≡◌, ◌%◌};
ghost use Rattle.access.specs.Accesses.{access_number, access_of, reading, writing};

use crate::Access;

impl Access {
    // The two low bits decide, and the others count for nothing.
    // Stays: no From, here and for levels: the name says that two bits are taken of any number. docs/DIFFERENCES.md names it (R9).
    pub fn from_bits(bits: u8) -> Access
        ensures { result ≡ access_of (bits % 4) }
    {
        match bits % 4 {
            0 => Access::None,
            1 => Access::Read,
            2 => Access::Write,
            _ => Access::ReadWrite,
        }
    }

    pub fn to_bits(self) -> u8
        ensures { result ≡ access_number self }
    {
        self as u8
    }

    // `ReadWrite` is a read, and a write too.
    #[tactic(auto, unfolding(laws::specs::Words::bit))]
    pub fn is_read(self) -> bool
        ensures { result ≡ reading (access_number self) }
    {
        self.to_bits() % 2 == 1
    }

    #[tactic(auto, unfolding(laws::specs::Words::bit))]
    pub fn is_write(self) -> bool
        ensures { result ≡ writing (access_number self) }
    {
        self.to_bits() / 2 % 2 == 1
    }
}
