// The numbers that the calls answer: which bits hold what.
#![tactic(auto)]

mod bits; // bits.rt: the parts of an answer, each at its bit
mod events; // events.rt: what a log has at a place

pub use bits::{answer_bits, difference_bits, digest_bits, exception_bits, privilege_bits};
pub use events::event_bits;
