// A reader as the code holds it: two places of bytes, for the unfinished item and for the latest good file, and whether it has stopped.
ghost use Rattle.std.specs.Prelude.{◌≡◌, [], ◌++◌, ◌+◌, ◌≤◌, ◌&&◌, true, length};
ghost use Rattle.streams.specs.Cuts.{halted};
ghost use Rattle.reader.specs.Places.{item_room, front_of, is_front, room_of};
ghost use Rattle.reader.specs.Held.{Inside, reader_with, reader_in, checked};

use std::marker::Model;

// No item is longer than its place.
pub const ITEM_ROOM: usize = 160;

// The bytes that are kept, and zeros behind them: so that the bytes say all of a place, and a copy of it is one.
#[derive(Clone, Copy)]
pub struct Place {
    room: [u8; ITEM_ROOM],
    used: usize,
}

impl Model for Place {
    ghost use Rattle.std.specs.Prelude.{ℕ, List, take, drop, replicate, length, ◌++◌, ◌≡◌, ◌≤◌};
    ghost use Rattle.std.proofs.Common.{arith, ap, sym, ◌∙◌, length-take-le, take-append-drop};

    ghost Value = { List ℕ };

    ghost view = { λ p. take p.used p.room };

    ghost invariant = { λ p. (p.used ≤ 160) × (length p.room ≡ 160) × (drop p.used p.room ≡ drop p.used (replicate 160 0)) };

    ghost inverse = { λ l. record { room = l ++ drop (length l) (replicate 160 0); used = length l } };

    ghost inverse_ok = { λ p h i. record {
      room = (ap (λ (k : ℕ). take p.used p.room ++ drop k (replicate 160 0)) (length-take-le p.used p.room (omega (arith, h.0, h.1)))
          ∙ ap (λ (l : List ℕ). take p.used p.room ++ l) (sym h.2) ∙ take-append-drop p.used p.room) i;
      used = length-take-le p.used p.room (omega (arith, h.0, h.1)) i;
    } };
}

// Whether bytes are so many as a place has, and n is no more.
#[tactic(auto, unfolding(crate::specs::Places::is_front))]
fn is_front(bytes: &[u8], n: usize) -> bool
    ensures { result ≡ is_front bytes.now n }
{
    bytes.len() == ITEM_ROOM && n <= ITEM_ROOM
}

impl Place {
    pub fn new() -> Place
        ensures { result ≡ [] }
    {
        Place {
            room: [0; ITEM_ROOM],
            used: 0,
        }
    }

    // The first n bytes of a place's, where they are so many as a place has and n is no more.
    #[tactic(auto, unfolding(crate::specs::Places::is_front))]
    pub fn front(bytes: &[u8], n: usize) -> Option<Place>
        ensures { result ≡ front_of bytes.now n }
    {
        if !is_front(bytes, n) {
            return None;
        }
        let mut place = Place::new();
        place.add(&bytes[..n]);
        Some(place)
    }

    pub fn bytes(&self) -> &[u8]
        ensures kept { result.now ≡ self.now }
        ensures short { length self.now ≤ item_room }
    {
        &self.room[..self.used]
    }

    // All bytes of the place: zeros stand behind those that are kept.
    pub fn room(&self) -> &[u8; ITEM_ROOM]
        ensures { result.now ≡ room_of self.now }
    {
        &self.room
    }

    pub fn add(&mut self, more: &[u8])
        requires { length self.old + length more.now ≤ item_room }
        ensures { self.new ≡ self.old ++ more.now }
    {
        let end = self.used + more.len();
        self.room[self.used..end].copy_from_slice(more);
        self.used = end;
    }

    pub fn clear(&mut self)
        ensures { self.new ≡ [] }
    {
        *self = Place::new();
    }
}

// What is told of a reader beside the bytes of its places: how many are kept of the unfinished item and of the latest good file, 0 for
// none, and whether an unknown kind was met.
// Stays: numbers and a flag beside bytes, any of them, as the words of a caller tell them; `Reader::of` makes places of them.
#[derive(Clone, Copy)]
pub struct Numbers {
    pub kept: usize,
    pub file: usize,
    pub stopped: bool,
}

impl Numbers {
    // Whether the bytes of two places can hold what the numbers tell.
    fn fit(self, item: &[u8], file: &[u8]) -> bool
        ensures fit { result ≡ (is_front item.now self.kept && is_front file.now self.file) }
        ensures inside { result ≡ true → Inside self item.now file.now }
    {
        is_front(item, self.kept) && is_front(file, self.file)
    }
}

// The kept bytes of the unfinished item, the latest good file's bytes, none where there is none, and whether an unknown kind was met.
// Stays: a flag beside the bytes; a stopped reader keeps its file, and WordsAreKept reads that back from its words.
#[derive(Clone, Copy)]
pub struct Reader {
    pub kept: Place,
    pub file: Place,
    pub stopped: bool,
}

impl Reader {
    // A stopped reader without bytes.
    pub fn halted() -> Reader
        ensures { reader_with result ≡ halted [] }
    {
        Reader {
            kept: Place::new(),
            file: Place::new(),
            stopped: true,
        }
    }

    // The same, in place.
    pub fn halt(&mut self)
        ensures { reader_with self.new ≡ halted [] }
    {
        self.kept.clear();
        self.file.clear();
        self.stopped = true;
    }

    // Becomes the reader that numbers and the bytes of two places hold. Any numbers and bytes are one: what holds none counts as a stopped
    // one. A reader is some hundred bytes: it is filled where it stands, and no place is handed on by value.
    #[tactic(auto, using(crate::proofs::Sound::holding))]
    pub fn hold(&mut self, r: Numbers, item: &[u8], file: &[u8])
        ensures { checked self.new ≡ reader_in r item.now file.now }
    {
        self.halt();
        if r.fit(item, file) {
            self.kept.add(&item[..r.kept]);
            self.file.add(&file[..r.file]);
            self.stopped = r.stopped;
        }
    }

    // The same by value.
    pub fn of(r: Numbers, item: &[u8], file: &[u8]) -> Reader
        ensures { checked result ≡ reader_in r item.now file.now }
    {
        let mut reader = Reader::halted();
        reader.hold(r, item, file);
        reader
    }
}
