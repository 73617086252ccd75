// A reader as the words that a C caller keeps.
ghost use Rattle.std.specs.Prelude.{◌≡◌, true, false, ◌+◌, ◌≤◌};
ghost use Rattle.reader.specs.Held.{reader_with, checked};
ghost use Rattle.reader_words.specs.Words.{reader_words, place_words, AreAt, words_of, reader_by};

use crate::places::{PLACE_WORDS, pack, unpack};
use reader::{ITEM_ROOM, Numbers, Reader};

// Where the numbers stand: how many bytes each place has, and whether the reader has stopped.
const KEPT: usize = 40;

const FILE: usize = 41;

const STOPPED: usize = 42;

// Lays the words of a reader.
// Stays: no From, here and in `hold`: neither the words nor the reader is a type of this crate. `as` is for a usize, which has none.
#[tactic(auto, using(crate::proofs::Ordered::written))]
pub fn put_words(words: &mut [u64; 48], r: &Reader)
    ensures { words.new ≡ words_of (reader_with r.now) }
{
    *words = [0; 48];
    pack(words, 0, r.kept.room());
    pack(words, PLACE_WORDS, r.file.room());
    words[KEPT] = r.kept.bytes().len() as u64;
    words[FILE] = r.file.bytes().len() as u64;
    words[STOPPED] = u64::from(r.stopped);
}

// Whether words from a place on are those of a room.
// Stays: words and a place in them, as in places.rt.
fn are_at(words: &[u64; 48], from: usize, room: &[u8; ITEM_ROOM]) -> bool
    requires { from + place_words ≤ reader_words }
    ensures same { result ≡ true → AreAt words.now from room.now }
    ensures other { result ≡ false → AreAt words.now from room.now → ⊥ }
{
    for i in 0..PLACE_WORDS {
        if words[from + i] != laws::u64_at(room, 8 * i) {
            return false;
        }
    }
    true
}

// Whether words are those of a reader: they are looked at where they stand.
fn are_words(words: &[u64; 48], r: &Reader) -> bool
    ensures same { result ≡ true → words.now ≡ words_of (reader_with r.now) }
    ensures other { result ≡ false → words.now ≡ words_of (reader_with r.now) → ⊥ }
{
    let told = [
        words[KEPT],
        words[FILE],
        words[STOPPED],
        words[43],
        words[44],
        words[45],
        words[46],
        words[47],
    ];
    let numbers = [
        r.kept.bytes().len() as u64,
        r.file.bytes().len() as u64,
        u64::from(r.stopped),
        0,
        0,
        0,
        0,
        0,
    ];
    if !are_at(words, 0, r.kept.room()) {
        return false;
    }
    if !are_at(words, PLACE_WORDS, r.file.room()) {
        return false;
    }
    told == numbers
}

// Becomes the reader that words are; a stopped one where they are those of no reader.
pub fn hold(reader: &mut Reader, words: &[u64; 48])
    ensures { checked reader.new ≡ reader_by words.now }
{
    let told = Numbers {
        kept: words[KEPT] as usize,
        file: words[FILE] as usize,
        stopped: words[STOPPED] != 0,
    };
    reader.hold(told, &unpack(words, 0), &unpack(words, PLACE_WORDS));
    if !are_words(words, reader) {
        reader.halt();
    }
}
