// A watch as the ten words that a C caller keeps. Any words at all get an answer.
ghost use Rattle.std.specs.Prelude.{◌≡◌};
ghost use Rattle.watching.specs.Traces.{new_of, left_by, step_of, after_step};
ghost use Rattle.watch_words.specs.Bits.{stepped_bits};
ghost use Rattle.watch_words.specs.Words.{when_in, when_word, watch_in, words_of, new_words};

use crate::bits::stepped_bits;
use laws::Refusal;
use watching::{Stepped, Tally, Variable, Watch};

// The word for no number.
// Stays: the words are those of the C interface; inside, it is an Option.
const NEVER: u64 = u64::MAX;

fn when_in(word: u64) -> Option<u64>
    ensures { result ≡ when_in word }
{
    (word != NEVER).then_some(word)
}

fn when_word(number: Option<u64>) -> u64
    ensures { result ≡ when_word number }
{
    number.unwrap_or(NEVER)
}

// Stays: no From: neither Watch nor [u64; 10] is a type of this crate, and one round the words would be put on and off in both calls.
#[tactic(auto, unfolding(crate::specs::Words::watch_in))]
fn watch_in(words: &[u64; 10]) -> Watch
    ensures { result ≡ watch_in words.now }
{
    let [
        address,
        length,
        pairs,
        unknown,
        none,
        part,
        whole,
        refused,
        first,
        last,
    ] = *words;
    Watch {
        variable: Variable { address, length },
        pairs,
        tally: Tally {
            unknown,
            none,
            part,
            whole,
        },
        refused,
        first: when_in(first),
        last: when_in(last),
    }
}

#[tactic(auto, unfolding(crate::specs::Words::words_of))]
fn words_of(w: Watch) -> [u64; 10]
    ensures { result ≡ words_of w }
{
    [
        w.variable.address,
        w.variable.length,
        w.pairs,
        w.tally.unknown,
        w.tally.none,
        w.tally.part,
        w.tally.whole,
        w.refused,
        when_word(w.first),
        when_word(w.last),
    ]
}

// Stays: the C interface, machhurel_watch_new answers this number.
pub fn new_watch(watch: &mut [u64; 10], address: u64, length: u64) -> u64
    ensures { (result, watch.new) ≡ new_words (new_of address length) watch.old }
{
    match Watch::new(address, length) {
        Ok(fresh) => {
            *watch = words_of(fresh);
            0
        }
        Err(refusal) => u64::from(refusal),
    }
}

// The watch after a step: one that is refused changes nothing.
fn left_by(w: Watch, stepped: Result<Stepped, Refusal>) -> Watch
    ensures { result ≡ left_by w stepped }
{
    match stepped {
        Ok(s) => s.watch,
        Err(_) => w,
    }
}

pub fn step_watch(watch: &mut [u64; 10], bytes: &[u8], file: &[u8]) -> u64
    ensures { (watch.new ≡ words_of (after_step (watch_in watch.old) (bytes.now, file.now)))
        × (result ≡ stepped_bits (step_of (watch_in watch.old) (bytes.now, file.now))) }
{
    let before = watch_in(watch);
    let stepped = before.step(bytes, file);
    *watch = words_of(left_by(before, stepped));
    stepped_bits(stepped)
}
