// A privilege level as two bits.
ghost use Rattle.std.specs.Prelude.{◌≡◌, ◌%◌};
ghost use Rattle.access.specs.Privileges.{level_number, level_of};

use crate::PrivilegeLevel;

impl PrivilegeLevel {
    // The two low bits decide, and the others count for nothing.
    // Stays: a twin of Access's: each match names the cases of its own enum, and a trait over both would have both bodies.
    pub fn from_bits(bits: u8) -> PrivilegeLevel
        ensures { result ≡ level_of (bits % 4) }
    {
        match bits % 4 {
            0 => PrivilegeLevel::Any,
            1 => PrivilegeLevel::PL0,
            2 => PrivilegeLevel::Special,
            _ => PrivilegeLevel::Reserved,
        }
    }

    pub fn to_bits(self) -> u8
        ensures { result ≡ level_number self }
    {
        self as u8
    }
}
