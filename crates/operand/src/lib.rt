// What a spec stands for: the one place that knows specs by their numbers beside the arms that write their events.
#![tactic(auto)]

mod registers_of; // registers_of.rt: the registers that an operand stands for
mod specs_by; // specs_by.rt: memory, string specs, and where a segment's base is added

pub use registers_of::{apply_x86_zext, fourth_of, segment_register};
pub use specs_by::{is_memory, is_string, takes_base};
