// Who tore a variable: the stores of a trace against a watched variable, one pair of a record and a register file at a time.
#![tactic(auto)]

mod tallies; // tallies.rt: write events counted by verdict
mod verdicts; // verdicts.rt: how much of the variable one event wrote
mod watch; // watch.rt: the watch, and its step
mod watched; // watched.rt: a variable that can be watched

pub use tallies::Tally;
pub use verdicts::{Naming, Variable, Verdict, name_event, verdict_on};
pub use watch::{MOST_PAIRS, Stepped, Watch};
pub use watched::{Watched, is_length};
