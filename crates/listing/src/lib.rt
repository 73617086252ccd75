// The listing of a record: its items in their order, walked by a cursor, and their bytes.
#![tactic(auto)]

mod call;
mod cursor;
mod items;

pub use call::{list_operands, put_listing};
pub use items::put_item;

// A place in the walk, as the Rust's iterator holds it without the record: before the explicit operands, `next` 0 stands at the flags and
// `next` i + 1 at entry i of the implicit list; among the explicit operands, `next` i stands at operand i.
// Stays: document 01's form, a cursor by value without the record; an Iterator would hold it.
#[derive(Clone, Copy)]
pub struct AccessIter {
    pub explicit: bool,
    pub next: u8,
}
