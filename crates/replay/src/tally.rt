// All cases, one after the other, and what was seen of them.
use crate::call::Call;
use crate::cases::{case_at, holds};
use std::io;

// The place of the next case; how many cases each call had, in the order of their numbers; how many differ.
// Stays: `at` is where the list goes on; a case's parts are cut out of the list there.
#[derive(Clone, Copy)]
pub struct Tally {
    pub at: usize,
    pub calls: [u64; 6],
    pub differences: u64,
}

impl Tally {
    // How many cases a call had.
    pub(crate) fn count(self, call: Call) -> u64 {
        self.calls[call as usize - 1]
    }

    fn passed(mut self, call: Option<Call>, next: usize) -> Self {
        self.at = next;
        if let Some(call) = call {
            let i = call as usize - 1;
            self.calls[i] = self.calls[i].wrapping_add(1);
        }
        self
    }

    // The first difference is printed as it is met.
    fn differing(mut self, rt: &impl Print, number: u32, call: Option<Call>) -> io::Result<Self> {
        if self.differences == 0 {
            crate::print::difference(rt, number, call)?;
        }
        self.differences = self.differences.wrapping_add(1);
        Ok(self)
    }
}

// Stays: the runtime and the list go along as two; neither is a part of the other.
pub(crate) fn replay_all(
    rt: &impl Print,
    list: &[u8],
    first: usize,
    cases: u32,
) -> io::Result<Tally> {
    let mut seen = Tally {
        at: first,
        calls: [0; 6],
        differences: 0,
    };
    for number in 0..cases {
        seen = replay_one(rt, list, seen, number)?;
    }
    Ok(seen)
}

// A case that the list breaks off in differs, and so do all that should follow it.
fn replay_one(rt: &impl Print, list: &[u8], seen: Tally, number: u32) -> io::Result<Tally> {
    let Some(c) = case_at(list, seen.at) else {
        return seen.differing(rt, number, None);
    };
    let call = c.head.call;
    let after = seen.passed(call, c.next);
    if holds(list, c) {
        return Ok(after);
    }
    after.differing(rt, number, call)
}
