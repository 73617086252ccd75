// Visiting a record: its refusals in their order, and its log in the lent buffer.
#![tactic(auto)]

mod number; // number.rt: the number of an answer
mod visit; // visit.rt: the call

pub use number::number_of;
pub use visit::{MOST_BYTES, visit_accesses};
