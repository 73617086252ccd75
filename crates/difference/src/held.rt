// Number, sign and part in one struct, which holds a reference: a thin last layer that leaves all work to the functions
// below it.
ghost use Rattle.std.specs.Prelude.{◌≡◌};
ghost use Rattle.difference.specs.Partings.{parted_of, parting_of};

use crate::logs::{Parted, part_logs, tail};

// Stays: theorem BrokenLogs, which says the sign and the part of a refused answer too; compare gives all three of any two logs.
#[derive(Clone, Copy)]
pub struct Difference<'b> {
    pub number: u8,
    pub differs: bool,
    pub part: &'b [u8],
}

// Two logs with lifetimes of their own: what is handed back lives as long as the second.
pub fn compare<'a, 'b>(first: &'a [u8], second: &'b [u8]) -> Difference<'b>
    ensures { (result.number ≡ (parted_of first.now second.now).number)
        × (result.differs ≡ (parted_of first.now second.now).differs)
        × (result.part.now ≡ parting_of first.now second.now) }
{
    let parted = part_logs(first, second);
    hold(parted, tail(second, parted))
}

fn hold<'b>(parted: Parted, part: &'b [u8]) -> Difference<'b>
    ensures { (result.number ≡ parted.number) × (result.differs ≡ parted.differs) × (result.part ≡ part.entry) }
{
    Difference {
        number: parted.number,
        differs: parted.differs,
        part,
    }
}
