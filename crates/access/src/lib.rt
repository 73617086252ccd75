// How operands are used, which privilege an instruction needs, and which exceptions it may raise.
#![tactic(auto)]

mod accesses;
mod exceptions;
mod privileges;

pub use exceptions::{then_set, with_bit};

// How an operand is used: the lower bit of its number is a read, the upper one a write.
#[derive(Clone, Copy, PartialEq, Eq)]
pub enum Access {
    None = 0,
    Read = 1,
    Write = 2,
    ReadWrite = 3,
}

// The privilege level that an instruction needs.
#[derive(Clone, Copy, PartialEq, Eq)]
pub enum PrivilegeLevel {
    Any = 0,
    PL0 = 1,
    Special = 2,
    Reserved = 3,
}

// An exception vector, as the processor numbers them.
// Stays: any byte is a vector, and `may_of` and `set_of` answer for one that has no name here; an enum would leave those out.
#[derive(Clone, Copy, PartialEq, Eq)]
pub struct Exception {
    pub vector: u8,
}

// A set of exception vectors: bit k for vector k.
#[derive(Clone, Copy, PartialEq, Eq)]
pub struct ExceptionInfo {
    pub vectors: u32,
}
