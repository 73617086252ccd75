// Document 01's number of an answer.
ghost use Rattle.std.specs.Prelude.{◌≡◌};
ghost use Rattle.definition.specs.Visits.{number_of};

use definition::Answer;

pub fn number_of(a: Answer) -> u8
    ensures { result ≡ number_of a }
{
    match a {
        Answer::Done(_) => 0,
        Answer::Refused(number) => number,
        Answer::Complex(_) => 4,
        Answer::Short(_) => 7,
    }
}
