// The calls that the list has answers of.
ghost use Rattle.replay.specs.Calls.{Decodes};

use std::fmt;

// Each under the number that the list has for it.
#[derive(Clone, Copy)]
pub enum Call {
    Visit = 1,
    Listing = 2,
    Digest = 3,
    Privilege = 4,
    Exceptions = 5,
    Event = 6,
}

pub(crate) const CALLS: [Call; 6] = [
    Call::Visit,
    Call::Listing,
    Call::Digest,
    Call::Privilege,
    Call::Exceptions,
    Call::Event,
];

// A number that no call has.
#[derive(Clone, Copy)]
pub struct NoCall(pub u8);

impl TryFrom<u8> for Call {
    type Error = NoCall;

    ghost try_from_gives = { Decodes };

    fn try_from(number: u8) -> Result<Self, NoCall> {
        match number {
            1 => Ok(Call::Visit),
            2 => Ok(Call::Listing),
            3 => Ok(Call::Digest),
            4 => Ok(Call::Privilege),
            5 => Ok(Call::Exceptions),
            6 => Ok(Call::Event),
            _ => Err(NoCall(number)),
        }
    }
}

impl fmt::Display for Call {
    fn fmt<W: fmt::Write>(&self, f: &mut fmt::Formatter<W>) -> fmt::Result {
        f.write_str(match self {
            Call::Visit => "visit",
            Call::Listing => "listing",
            Call::Digest => "digest",
            Call::Privilege => "privilege",
            Call::Exceptions => "exceptions",
            Call::Event => "event",
        })
    }
}
