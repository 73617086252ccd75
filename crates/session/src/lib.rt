// A log session: it appends one visit's log at a time to a buffer, and keeps counts for a status line.
#![tactic(auto)]

mod appends; // appends.rt: the session, its append and its reset
mod counts; // counts.rt: the events of a log, counted
mod words; // words.rt: a session as three words

pub use appends::{Appended, Session};
pub use words::{append_words, reset_words};
