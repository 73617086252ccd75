// Exact figures for the acceptance sheet: totals over many logs under one watch.
#![tactic(auto)]

mod sheet; // sheet.rt: a new sheet, and one log more
mod words; // words.rt: what an event adds to the words

pub use sheet::{MOST_LOG_BYTES, MOST_LOGS, add_log, new_sheet};
pub use words::{BANK_COUNT, IN, KNOWN, LOGS, OUT, PART, READS, SIZE_COUNT, SIZES, WORDS, WRITES};
