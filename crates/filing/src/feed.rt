// A sheet's file, byte by byte. The bytes of the part under way stand at the front of a buffer that the caller lends.
// Stays: there is no heap, so these bytes are no Vec, and how many they are stands in the feed.
ghost use Rattle.std.specs.Prelude.{◌≡◌, ◌≤◌, ◌<◌, length};
ghost use Rattle.filing.specs.Feeds.{header_bytes, length_bytes, part_size, start_feed, waiting_feed, headed, logged, sized, completed, state_of, is_full, pushed, fed, Ready, end_number};
ghost use Rattle.laws.specs.Words.{number_at};

use laws::Refusal;
use totals::{LOGS, MOST_LOG_BYTES, MOST_LOGS, WORDS};

// The bytes of a header, and of a log's length.
const HEADER_BYTES: usize = 9;

const LENGTH_BYTES: usize = 4;

// What is under way: an address and a watched length, a log's length, or a log of so many bytes.
// Stays: it names the part, and is neither an Option nor a Result.
#[derive(Clone, Copy)]
pub enum Part {
    Header,
    Length,
    Log(usize),
}

// The part under way and how many of its bytes there are; or the number that was refused.
// Stays: the number is the one that totals answers, and C calls totals.
#[derive(Clone, Copy)]
pub enum Feed {
    Reading { part: Part, have: usize },
    Refused(u64),
}

pub fn begin() -> Feed
    ensures { result ≡ start_feed }
{
    Feed::Reading {
        part: Part::Header,
        have: 0,
    }
}

fn size_of(part: Part) -> usize
    ensures { result ≡ part_size part }
{
    match part {
        Part::Header => HEADER_BYTES,
        Part::Length => LENGTH_BYTES,
        Part::Log(n) => n,
    }
}

// The next log's length is awaited, or a number was refused.
// Stays: the number is what totals::new_sheet and add_log answer, as their C calls do; 0 is no refusal.
fn waiting(number: u64) -> Feed
    ensures { result ≡ waiting_feed number }
{
    if number != 0 {
        return Feed::Refused(number);
    }
    Feed::Reading {
        part: Part::Length,
        have: 0,
    }
}

#[tactic(auto, unfolding(crate::specs::Feeds::headed))]
fn take_header(words: &mut [u64; WORDS], item: &[u8]) -> Feed
    requires { header_bytes ≤ length item.now }
    ensures { (result, words.new) ≡ headed words.old item.now }
{
    let address = laws::u64_at(item, 0);
    waiting(totals::new_sheet(words, address, u64::from(item[8])))
}

#[tactic(auto, unfolding(crate::specs::Feeds::logged))]
fn take_log(words: &mut [u64; WORDS], item: &[u8]) -> Feed
    ensures { (result, words.new) ≡ logged words.old item.now }
{
    waiting(totals::add_log(words, item))
}

#[tactic(auto, unfolding(crate::specs::Feeds::sized))]
fn take_length(words: &mut [u64; WORDS], item: &[u8]) -> Feed
    requires { length_bytes ≤ length item.now }
    ensures { (result, words.new) ≡ sized words.old (number_at item.now 0 4) }
{
    let n = laws::u32_at(item, 0) as usize;
    if MOST_LOG_BYTES < n {
        return Feed::Refused(u64::from(Refusal::Outside));
    }
    if n == 0 {
        return take_log(words, &[]);
    }
    Feed::Reading {
        part: Part::Log(n),
        have: 0,
    }
}

// A part that is whole.
// Stays: no switch on steps but a match on the cases of an enum, each with what it holds.
#[tactic(auto, unfolding(crate::specs::Feeds::completed))]
fn complete(part: Part, words: &mut [u64; WORDS], item: &[u8]) -> Feed
    requires { length item.now ≡ part_size part }
    ensures { (result, words.new) ≡ completed part words.old item.now }
{
    match part {
        Part::Header => take_header(words, item),
        Part::Length => take_length(words, item),
        Part::Log(_) => take_log(words, item),
    }
}

// The limit is reached, and another log begins.
fn is_full(part: Part, have: usize, words: &[u64; WORDS]) -> bool
    ensures { result ≡ is_full part have words.now }
{
    matches!(part, Part::Length) && have == 0 && MOST_LOGS <= words[LOGS]
}

// One byte more.
fn push(f: Feed, words: &mut [u64; WORDS], carry: &mut [u8], b: u8) -> Feed
    requires { Ready f carry.old }
    ensures { (state_of result words.new carry.new ≡ pushed (state_of f words.old carry.old) b) × Ready result carry.new }
{
    let Feed::Reading { part, have } = f else {
        return f;
    };
    if is_full(part, have, words) {
        return Feed::Refused(u64::from(Refusal::Full));
    }
    carry[have] = b;
    let next = have + 1;
    if next < size_of(part) {
        return Feed::Reading { part, have: next };
    }
    complete(part, words, &carry[..next])
}

// A block.
// Stays: a public function, whose caller lends the words and the buffer apart; its clause, `fed`, is over the three.
pub fn feed_block(f: Feed, words: &mut [u64; WORDS], carry: &mut [u8], block: &[u8]) -> Feed
    requires { Ready f carry.old }
    ensures { (state_of result words.new carry.new ≡ fed (state_of f words.old carry.old) block.now) × Ready result carry.new }
{
    let mut g = f;
    for b in block {
        g = push(g, words, carry, *b);
    }
    g
}

// At the end of the file: the number that was refused, 1 where a part is cut.
// Stays: the theorem FileIsRead is about this number, which is 0 where nothing was refused.
#[tactic(auto, unfolding(crate::specs::Feeds::end_number))]
pub fn end_number(f: Feed) -> u64
    ensures { result ≡ end_number f }
{
    match f {
        Feed::Refused(number) => number,
        Feed::Reading {
            part: Part::Length,
            have: 0,
        } => 0,
        Feed::Reading { .. } => u64::from(Refusal::Malformed),
    }
}
