// What users call: every call takes bytes and answers one number, whose bits crate answers names. No call requires anything.
// Crate machhurel_c exports each as C.
#![tactic(auto)]

mod blocks; // blocks.rt: the call on a block of records
mod calls; // calls.rt: the calls on a record and on a log
mod fetches; // fetches.rt: the calls on a set of registers for a list of records
mod readers; // readers.rt: the calls on a reader of a stream, whose words the caller keeps
mod sessions; // sessions.rt: the calls on a log session, whose words the caller keeps
mod sheets; // sheets.rt: the calls on a sheet, whose words the caller keeps
mod watches; // watches.rt: the calls on a watch, whose words the caller keeps

pub use blocks::machhurel_block;
pub use calls::{
    machhurel_difference, machhurel_digest, machhurel_event, machhurel_exceptions,
    machhurel_listing, machhurel_privilege, machhurel_visit,
};
pub use fetches::{machhurel_fetch_judge, machhurel_fetch_propose};
pub use readers::{machhurel_reader_close, machhurel_reader_new, machhurel_reader_read};
pub use sessions::{machhurel_append, machhurel_reset};
pub use sheets::{machhurel_sheet_add, machhurel_sheet_new};
pub use watches::{machhurel_verdict, machhurel_watch_new, machhurel_watch_step};
