// An acceptance sheet as text, written into a lent buffer.
#![tactic(auto)]

mod lines; // lines.rt: a line of one number, and of two
mod report; // report.rt: the sheet's lines, or its refusal

pub use report::put_report;
