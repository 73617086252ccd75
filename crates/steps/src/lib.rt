// The log of a visit, written. No register file is asked here: what the addresses are made of comes as values.
#![tactic(auto)]

mod explicit; // explicit.rt: the explicit operands, part by part
mod log; // log.rt: the whole log

pub use log::put_log;
