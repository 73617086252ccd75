// A reader as the words that a C caller keeps: specs/Words.antt says how they are laid out. Any words at all get an answer.
#![tactic(auto)]

mod calls; // calls.rt: the calls over words
mod places; // places.rt: bytes in words and words in bytes
mod words; // words.rt: a reader as words

pub use calls::{close_words, new_words, read_words};
