// Numbers in decimal, written into a lent buffer.
#![tactic(auto)]

mod words; // words.rt: letters and numbers

pub use words::{put, put_decimal};
