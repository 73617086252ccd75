// The bytes of an item or of a file in 20 words, lowest byte first.
// Stays: words and a place in them: the C caller keeps both places and the numbers in one array.
ghost use Rattle.std.specs.Prelude.{◌≡◌, ◌+◌, ◌≤◌};
ghost use Rattle.std.proofs.lemmas.List.Edits.{sets};
ghost use Rattle.reader_words.specs.Words.{reader_words, place_words, bytes_in, words_in};

use reader::ITEM_ROOM;

// The words of a place.
pub const PLACE_WORDS: usize = 20;

// The bytes of the words from a place on.
#[tactic(auto, using(crate::proofs::Packing::laying))]
pub fn unpack(words: &[u64; 48], from: usize) -> [u8; ITEM_ROOM]
    requires { from + place_words ≤ reader_words }
    ensures { result ≡ bytes_in words.now from }
{
    let mut out = [0; ITEM_ROOM];
    for i in 0..PLACE_WORDS {
        laws::put_u64(&mut out[8 * i..], words[from + i]);
    }
    out
}

// The words of a place's bytes, from a place of the words on.
#[tactic(auto, using(crate::proofs::Packing::storing))]
pub fn pack(words: &mut [u64; 48], from: usize, room: &[u8; ITEM_ROOM])
    requires { from + place_words ≤ reader_words }
    ensures { words.new ≡ sets words.old from (words_in room.now) }
{
    for i in 0..PLACE_WORDS {
        words[from + i] = laws::u64_at(room, 8 * i);
    }
}
