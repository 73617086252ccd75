// What a part of an explicit operand does to registers and memory, written: no register file is asked.
#![tactic(auto)]

mod memory; // memory.rt: memory that it touches
mod registers_of; // registers_of.rt: registers that it reads or writes

pub use memory::{LEA, is_stopped, put_access, put_deref, put_indexed};
pub use registers_of::{put_masked, put_plain, put_segment};
