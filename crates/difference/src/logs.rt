// What is answered of two logs: by value, and the part of the second log itself.
ghost use Rattle.std.specs.Prelude.{◌≡◌, ◌||◌, length, drop, ltb};
ghost use Rattle.difference.specs.Partings.{refused, parted_of, parting_of};

use crate::walk::shared_end;
use laws::Refusal;

// The refusal number or 0, whether the logs differ, and where the part of the second log begins.
// Stays: the C interface, machhurel_difference hands out the place of a refused answer too, and BrokenLogs says which sign and place.
#[derive(Clone, Copy)]
pub struct Parted {
    pub number: u8,
    pub differs: bool,
    pub at: usize,
}

// Both logs are read whole before they are compared.
#[tactic(auto, using(crate::proofs::Compared::first_refused, crate::proofs::Compared::compared))]
pub fn part_logs(first: &[u8], second: &[u8]) -> Parted
    ensures { result ≡ parted_of first.now second.now }
{
    if let Err(refusal) = event::count_events(first) {
        return refused(refusal, second);
    }
    if let Err(refusal) = event::count_events(second) {
        return refused(refusal, second);
    }
    let at = shared_end(first, second);
    Parted {
        number: 0,
        differs: goes_on(first, at) | goes_on(second, at),
        at,
    }
}

// The part of the second log: it lives as long as that log does, however long the first does.
#[tactic(auto, using(crate::proofs::Compared::tail_is))]
pub fn parting<'a, 'b>(first: &'a [u8], second: &'b [u8]) -> &'b [u8]
    ensures { result.now ≡ parting_of first.now second.now }
{
    tail(second, part_logs(first, second))
}

// What stands from the place on, nothing where it lies past the end.
pub fn tail(log: &[u8], parted: Parted) -> &[u8]
    ensures { result.now ≡ drop parted.at log.now }
{
    let at = parted.at;
    if log.len() < at {
        return &log[log.len()..];
    }
    &log[at..]
}

fn refused(refusal: Refusal, second: &[u8]) -> Parted
    ensures { result ≡ refused refusal second.now }
{
    Parted {
        number: refusal.into(),
        differs: false,
        at: second.len(),
    }
}

// Stays: a log and a place in it, as the walk along both has them.
fn goes_on(log: &[u8], at: usize) -> bool
    ensures { result ≡ ltb at (length log.now) }
{
    at < log.len()
}
