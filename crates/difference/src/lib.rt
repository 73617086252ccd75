// Where two logs part. Logs are compared event by event, and only where both read whole.
#![tactic(auto)]

mod held; // held.rt: number, sign and part in one struct
mod logs; // logs.rt: number, sign and place; the part of the second log
mod same; // same.rt: one event and another
mod walk; // walk.rt: the events that both logs have

pub use held::{Difference, compare};
pub use logs::{Parted, part_logs, parting};
