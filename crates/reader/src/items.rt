// A chunk taken item by item, up to the first that is answered.
ghost use Rattle.std.specs.Prelude.{◌≡◌, List, ◌++◌, [], ◌∷◌, true, false, ℕ, ◌≤◌, ◌<◌, length, get_or};
ghost use Rattle.streams.specs.Streams.{meaning};
ghost use Rattle.reader.specs.declared.items.Brought.TheVariants.{Nothing};
ghost use Rattle.reader.specs.Items.{PartIn, Less, Through, onward, closed, after_item, taking, goes_on};

use crate::held::Reader;
use crate::kinds::{is_file, length_of, of_file};

// What a chunk brought so far: nothing that is answered; the byte of an unknown kind, which is next; or a bad file or a record, which
// stands whole where items are kept.
#[derive(Clone, Copy, PartialEq, Eq)]
pub enum Brought {
    Nothing,
    Unknown,
    BadFile,
    Record,
}

// How far a chunk is taken: what it brought, and the bytes taken.
// Stays: a call answers how many bytes it took, and the next turn goes on there.
#[derive(Clone, Copy)]
pub struct Taking {
    pub brought: Brought,
    pub taken: usize,
}

impl Taking {
    // Whether there is more to take.
    #[tactic(auto, unfolding(crate::specs::Items::goes_on))]
    fn goes_on(self, end: usize) -> bool
        ensures { result ≡ goes_on self end }
    {
        self.brought == Brought::Nothing && self.taken < end
    }
}

impl Reader {
    // The kind of the item whose next byte this is.
    fn kind_of(&self, next: u8) -> u8
        ensures { result ≡ get_or (self.now.kept ++ (next ∷ [])) 0 0 }
    {
        self.kept.bytes().first().copied().unwrap_or(next)
    }

    // An item that is whole: a good file becomes the latest one.
    fn settle(&mut self) -> Brought
        requires { 0 < length self.old.kept }
        ensures means { (n : ℕ) (c : List ℕ)
            → onward (taking result n) self.new c ≡ after_item (meaning self.old.file self.old.kept) n c }
        ensures part { PartIn result self.new.kept }
        ensures stopped { self.new.stopped ≡ self.old.stopped }
    {
        let item = self.kept.bytes();
        if !of_file(item[0]) {
            return Brought::Record;
        }
        if !is_file(item) {
            return Brought::BadFile;
        }
        self.file = self.kept;
        self.kept.clear();
        Brought::Nothing
    }

    // One item, or as much of it as the chunk has.
    fn take_item(&mut self, t: Taking, chunk: &[u8]) -> Taking
        requires part { PartIn t.brought self.old.kept }
        requires going { goes_on t (length chunk.now) ≡ true }
        ensures means { onward result self.new chunk.now ≡ onward t self.old chunk.now }
        ensures part { PartIn result.brought self.new.kept }
        ensures less { Less result t (length chunk.now) }
        ensures stopped { self.new.stopped ≡ self.old.stopped }
    {
        let rest = &chunk[t.taken..];
        let long = length_of(self.kind_of(rest[0]));
        if long == 0 {
            return Taking {
                brought: Brought::Unknown,
                taken: t.taken,
            };
        }
        let n = rest.len().min(long - self.kept.bytes().len());
        self.kept.add(&rest[..n]);
        let taken = t.taken + n;
        if self.kept.bytes().len() < long {
            return Taking {
                brought: Brought::Nothing,
                taken,
            };
        }
        Taking {
            brought: self.settle(),
            taken,
        }
    }

    // A chunk, up to the first item that is answered.
    #[tactic(auto, using(crate::proofs::Turns::all_taken, crate::proofs::Turns::fewer))]
    pub(crate) fn take_items(&mut self, chunk: &[u8]) -> Taking
        requires { PartIn Nothing self.old.kept }
        ensures means { closed result self.new ≡ onward (taking Nothing 0) self.old chunk.now }
        ensures through { Through result (length chunk.now) }
        ensures stopped { self.new.stopped ≡ self.old.stopped }
    {
        let mut t = Taking {
            brought: Brought::Nothing,
            taken: 0,
        };
        // Stays: a turn takes as many bytes as its item lacks, and may end the loop; no range and no iterator goes by such steps.
        while t.goes_on(chunk.len()) {
            t = self.take_item(t, chunk);
        }
        t
    }
}
