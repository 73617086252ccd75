// The events of a log as bytes. The writers write at the front of what is lent to them; the reader takes any bytes.
#![tactic(auto)]

mod reader; // reader.rt: what stands at a place of a log
mod walk; // walk.rt: a whole log, event by event
mod writer; // writer.rt: one event

pub use reader::{read_event, read_front};
pub use walk::count_events;
pub use writer::{put_memory, put_register};
