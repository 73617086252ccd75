// What the program writes.
use crate::call::{CALLS, Call};
use crate::tally::Tally;
use std::io;

pub(crate) fn no_list(rt: &impl Print) -> io::Result<()> {
    println!(rt; "not a list of answers")
}

pub(crate) fn difference(rt: &impl Print, number: u32, call: Option<Call>) -> io::Result<()> {
    match call {
        Some(call) => println!(rt; "the first difference: case {number}, {call}"),
        None => println!(rt; "the first difference: case {number}, no call"),
    }
}

pub(crate) fn tally(rt: &impl Print, seen: Tally, cases: u32, end: usize) -> io::Result<()> {
    for call in CALLS {
        let n = seen.count(call);
        println!(rt; "{call} {n}")?;
    }
    ending(rt, seen.at, end)?;
    let differences = seen.differences;
    println!(rt; "{cases} cases, {differences} differences")
}

// A list that the cases do not fill is no list.
fn ending(rt: &impl Print, at: usize, end: usize) -> io::Result<()> {
    if at != end {
        println!(rt; "the cases end at byte {at} of {end}")?;
    }
    Ok(())
}
