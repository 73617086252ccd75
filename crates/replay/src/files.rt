// Parts of the list, and where its register files stand.
ghost use Rattle.std.specs.Prelude.{◌+◌, length};
ghost use Rattle.replay.specs.Parts.{IsPart, Within};

use std::ops::Range;

// The `count` bytes from a place on, where the list has them.
// Stays: a list and a place: places come from the list's own bytes, and any of them has an answer.
pub fn part_at(list: &[u8], at: usize, count: usize) -> Option<Range<usize>>
    ensures { IsPart (length list.now) at count result }
{
    let end = at.checked_add(count)?;
    if list.len() < end {
        return None;
    }
    Some(at..end)
}

// File k, counted from 0.
pub fn file(list: &[u8], k: u32) -> Option<Range<usize>>
    ensures { Within (length list.now) result }
{
    file_at(list, behind(list, k))
}

// The place behind the first `count` files, or the list's end where it has fewer.
pub(crate) fn behind(list: &[u8], count: u32) -> usize {
    let mut at = 16;
    for _ in 0..count {
        let Some(file) = file_at(list, at) else {
            return list.len();
        };
        at = file.end;
    }
    at
}

// The file whose length stands at a place.
fn file_at(list: &[u8], at: usize) -> Option<Range<usize>>
    ensures { Within (length list.now) result }
{
    let length = part_at(list, at, 2)?;
    part_at(list, length.end, laws::u16_at(list, length.start) as usize)
}
