// A sheet's words, and what the events of a log add to them.
ghost use Rattle.std.specs.Prelude.{◌≡◌, true, [], ◌∷◌};
ghost use Rattle.laws.specs.Lists.{each};
ghost use Rattle.definition.specs.Readings.{is_event};
ghost use Rattle.event.specs.Wholes.{whole_of, events_in};
ghost use Rattle.totals.specs.Sheets.{parts, size_word, additions, raised, raised_by};

use definition::{Event, Reading};
use event::read_event;
use watching::{Verdict, Watched};

// How many words a sheet has, and their places. Bank b's reads stand at READS + b, its writes at WRITES + b, memory events of n bytes at
// SIZES + n.
// Stays: the C interface, a sheet is the 99 words that its caller keeps, and a word is found by its place.
pub const WORDS: usize = 99;

pub(crate) const ADDRESS: usize = 0;

pub(crate) const LENGTH: usize = 1;

pub const LOGS: usize = 2;

pub const IN: usize = 3;

pub const OUT: usize = 4;

pub const PART: usize = 5;

pub const KNOWN: usize = 6;

pub const READS: usize = 7;

pub const WRITES: usize = 21;

pub const SIZES: usize = 34;

// Banks from 0 on, and sizes from 1 on, that have a word.
pub const BANK_COUNT: usize = 14;

pub const SIZE_COUNT: usize = 64;

// Past the last word nothing is raised.
#[tactic(auto, unfolding(crate::specs::Sheets::raised))]
pub(crate) fn raise(words: &mut [u64; WORDS], i: usize, n: u64)
    ensures { words.new ≡ raised words.old i n }
{
    if i < WORDS {
        words[i] = words[i].wrapping_add(n);
    }
}

fn parts(v: Verdict) -> u64
    ensures { result ≡ parts v }
{
    u64::from(matches!(v, Verdict::PartTouched))
}

// A memory event of n bytes: one more of its size, and its bytes in or out.
#[tactic(auto, unfolding(crate::specs::Sheets::raised_by))]
fn add_memory(words: &mut [u64; WORDS], bytes: usize, n: u8)
    ensures { words.new ≡ raised_by words.old ((size_word n, 1) ∷ (bytes, n) ∷ []) }
{
    raise(words, SIZES + n as usize, 1);
    raise(words, bytes, n as u64);
}

// Stays: no switch on steps but a match on the cases of an enum, each with what it holds.
#[tactic(auto, unfolding(crate::specs::Sheets::additions, crate::specs::Sheets::raised_by, watching::specs::Verdicts::verdict_of))]
fn add_event(words: &mut [u64; WORDS], v: Watched, e: Event)
    requires { is_event e ≡ true }
    ensures { words.new ≡ raised_by words.old (additions v.variable e) }
{
    match e {
        Event::RegisterRead(y) => raise(words, READS + y.bank as usize, 1),
        Event::RegisterWrite(y) => raise(words, WRITES + y.bank as usize, 1),
        Event::MemoryRead(_, n) => add_memory(words, IN, n),
        Event::MemoryWrite(_, n) => {
            let part = parts(v.verdict_on(e));
            add_memory(words, OUT, n);
            raise(words, KNOWN, 1);
            raise(words, PART, part)
        }
        Event::UnknownRead(n) => add_memory(words, IN, n),
        Event::UnknownWrite(n) => add_memory(words, OUT, n),
    }
}

// Every event of a log, as far as it reads.
// Stays: document 01's form, a walk by let .. else; a fold asks that its step may be called at any event, and add_event asks is_event.
pub(crate) fn add_events(words: &mut [u64; WORDS], v: Watched, log: &[u8])
    ensures { words.new ≡ raised_by words.old (each (additions v.variable) (events_in (whole_of log.now))) }
{
    let mut at = 0;
    loop {
        let Reading::Found(e, next) = read_event(log, at) else {
            return;
        };
        add_event(words, v, e);
        at = next;
    }
}
