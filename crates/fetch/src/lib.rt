// The judge of a set of registers for a list of records, and the proposer of one.
#![tactic(auto)]

mod bits; // bits.rt: which bits of an answer hold what
mod judging; // judging.rt: the walk along a list of records
mod needs; // needs.rt: the needs of one record
mod operands; // operands.rt: those of its explicit operands
mod slots; // slots.rt: the full register that a register is part of

pub use bits::{judge_bits, propose_bits};
pub use judging::{judge, propose};
