// A reader of a stream of files and records that arrives in chunks. It keeps the unfinished item and the latest good file, and answers
// the log of each record under that file. What it answers stands in the crate `streams`.
#![tactic(auto)]

mod chunks; // chunks.rt: a chunk handed over, and closing
mod held; // held.rt: a reader, and the places of its bytes
mod items; // items.rt: a chunk taken item by item
mod kinds; // kinds.rt: the kinds of items and their lengths

pub use chunks::checked;
pub use held::{ITEM_ROOM, Numbers, Place, Reader};
