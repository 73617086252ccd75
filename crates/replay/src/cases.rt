// The cases of the list.
ghost use Rattle.std.specs.Prelude.{◌+◌, ◌≤◌, length};
ghost use Rattle.replay.specs.Cases.{Parted, Whole};

use crate::call::Call;
use crate::calls::is_same;
use crate::files::{file, part_at};

// What a case's head says, field by field. A number of no call names none.
#[derive(Clone, Copy)]
pub struct Head {
    pub call: Option<Call>,
    pub count: u8,
    pub file: u16,
    pub length: u16,
    pub room: u16,
    pub start: u64,
    pub answer: u64,
}

// A case, and where its record or log, the bytes written and the next case start.
#[derive(Clone, Copy)]
pub struct Case {
    pub head: Head,
    pub subject: usize,
    pub written: usize,
    pub next: usize,
}

// Stays: a list and a place, any place; so for `next`, where the list goes on.
pub fn case_at(list: &[u8], at: usize) -> Option<Case>
    ensures { Whole (length list.now) result }
{
    let front = part_at(list, at, 24)?;
    let head = head_at(list, front.start);
    let subject = part_at(list, front.end, head.length as usize)?;
    let written = part_at(list, subject.end, head.count as usize)?;
    Some(Case {
        head,
        subject: subject.start,
        written: written.start,
        next: written.end,
    })
}

fn head_at(list: &[u8], at: usize) -> Head
    requires { at + 24 ≤ length list.now }
{
    Head {
        call: Call::try_from(list[at]).ok(),
        count: list[at + 1],
        file: laws::u16_at(list, at + 2),
        length: laws::u16_at(list, at + 4),
        room: laws::u16_at(list, at + 6),
        start: laws::u64_at(list, at + 8),
        answer: laws::u64_at(list, at + 16),
    }
}

// Whether the call of the case does what the list says.
pub(crate) fn holds(list: &[u8], c: Case) -> bool
    requires { Parted (length list.now) c }
{
    let Some(file) = file(list, c.head.file as u32) else {
        return false;
    };
    is_same(
        c.head,
        &list[c.subject..c.written],
        &list[file],
        &list[c.written..c.next],
    )
}
