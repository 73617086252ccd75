// A block of records in one call: their logs behind one another, and four bytes of answer for each.
#![tactic(auto)]

mod fours; // fours.rt: the four bytes of a record's answer
mod bits; // bits.rt: the call's answer, each part at its bit
mod blocks; // blocks.rt: the call

pub use bits::answer_block;
pub use blocks::{Blocked, visit_block};
