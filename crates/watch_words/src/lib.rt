// A watch in words: what a C caller keeps of it, and the numbers that its calls answer.
#![tactic(auto)]

mod bits; // bits.rt: the parts of an answer, each at its bit
mod words; // words.rt: a watch as ten words

pub use bits::verdict_bits;
pub use words::{new_watch, step_watch};
