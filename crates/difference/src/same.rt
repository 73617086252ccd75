// One event and another.
ghost use Rattle.std.specs.Prelude.{◌≡◌};
ghost use Rattle.difference.specs.Partings.{same_event};

use definition::Event;

// By kind and numbers, as the definition asks them.
#[tactic(auto, using(crate::proofs::Lists::same_when), unfolding(crate::specs::Partings::same_event))]
pub fn same_event(d: Event, e: Event) -> bool
    ensures { result ≡ same_event d e }
{
    d == e
}
