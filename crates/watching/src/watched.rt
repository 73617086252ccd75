// A variable that can be watched.
ghost use Rattle.std.specs.Prelude.{◌≡◌, true, false, MatchResult};
ghost use Rattle.laws.specs.declared.refusals.Refusal.TheVariants.{Outside};
ghost use Rattle.watching.specs.Verdicts.{is_length};

use crate::verdicts::Variable;
use laws::Refusal;

// A variable whose length is one that a variable may have.
#[derive(Clone, Copy)]
pub struct Watched {
    pub variable: Variable,
    pub ghost long: { is_length variable.length ≡ true },
}

// A length that a variable may have.
pub fn is_length(n: u64) -> bool
    ensures { result ≡ is_length n }
{
    (1..=8).contains(&n)
}

impl Watched {
    // Another length is refused 2.
    pub fn new(variable: Variable) -> Result<Watched, Refusal>
        ensures { MatchResult result
            (λ w. w.variable ≡ variable)
            (λ r. (r ≡ Outside) × (is_length variable.length ≡ false)) }
    {
        if is_length(variable.length) {
            Ok(Watched { variable })
        } else {
            Err(Refusal::Outside)
        }
    }
}
