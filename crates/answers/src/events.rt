// What a log has at a place, as a number.
// Stays: a log and a place, as the C call has them; no From, since the number says how far behind that place the next event stands.
ghost use Rattle.std.specs.Prelude.{◌≡◌};
ghost use Rattle.definition.specs.Readings.{read_at};
ghost use Rattle.answers.specs.Answers.{event_bits};

use definition::Reading;

pub fn event_bits(log: &[u8], at: usize) -> u64
    ensures { result ≡ event_bits at (read_at log.now at) }
{
    let found = event::read_event(log, at);
    match found {
        Reading::Found(_, next) => ((next - at) as u64) * 0x1_0000_0000,
        Reading::Bad(refusal) => u64::from(refusal),
        Reading::Finished => 255,
    }
}
