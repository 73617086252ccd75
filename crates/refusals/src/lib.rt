// Refusals 5 and 6 of a record after fix-ups: an access that names no register, and memory of no size.
#![tactic(auto)]

mod operands; // operands.rt: what they ask of the operands that are accessed
mod refusals; // refusals.rt: the two tests

pub use refusals::{is_nameless, is_sizeless};
