// A sheet's file: an address, a watched length, then each log after its length. It is fed in blocks of any size: a part of it may begin
// in one block and end in another.
#![tactic(auto)]

mod feed; // feed.rt: byte by byte

pub use feed::{Feed, Part, begin, end_number, feed_block};
