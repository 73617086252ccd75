// The static library that C links: each call of crate machhurel under the same name and clauses, by C's calling
// convention.
// Stays: the C interface: a function for each call of machhurel, since a crate exports its own functions alone (docs/DECISIONS.md).
#![tactic(auto)]

mod blocks; // blocks.rt: the call on a block of records
mod calls; // calls.rt: the calls on a record and on a log
mod fetches; // fetches.rt: the calls on a set of registers for a list of records
mod readers; // readers.rt: the calls on a reader of a stream, whose words a C caller keeps
mod sessions; // sessions.rt: the calls on a log session, whose words a C caller keeps
mod sheets; // sheets.rt: the calls on a sheet, whose words a C caller keeps
mod watches; // watches.rt: the calls on a watch, whose words a C caller keeps
