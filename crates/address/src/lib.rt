// Addresses: what a register file says of the registers that a record's addresses are made of, and sums modulo two to the 64.
#![tactic(auto)]

mod places; // places.rt: the one place where a register file is asked
mod values; // values.rt: sums of what is known
mod words; // words.rt: numbers of 64 bits

pub use places::{Sources, resolve};
pub use values::{cut, low, plus, sum};
pub use words::{sign_extended, times};
