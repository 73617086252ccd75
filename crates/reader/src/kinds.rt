// The kinds of items: how long each is, and which are files.
ghost use Rattle.std.specs.Prelude.{◌≡◌, ◌<◌};
ghost use Rattle.registers.specs.Files.{is_file};
ghost use Rattle.streams.specs.Streams.{length_of, of_file};
ghost use Rattle.reader.specs.Places.{item_room};

// Whether a kind is a file's.
// Stays: a kind is a byte of the stream, any byte, as in `of_file` and `length_of` of crate streams.
#[tactic(auto, unfolding(streams::specs::Streams::of_file))]
pub fn of_file(kind: u8) -> bool
    ensures { result ≡ of_file kind }
{
    registers::length_of(kind) > 0
}

// How long an item of a kind is; 0 for an unknown kind.
// Stays: 0 and no Option, as `length_of` of crate streams has it: no bytes are shorter, so that `is_part` needs no case for it.
#[tactic(auto, using(crate::proofs::Sound::kinds_short), unfolding(streams::specs::Streams::length_of))]
pub fn length_of(kind: u8) -> usize
    ensures long { result ≡ length_of kind }
    ensures short { result < item_room }
{
    if of_file(kind) {
        registers::length_of(kind)
    } else {
        record::length_of(kind)
    }
}

// Whether bytes are a good file.
#[tactic(auto, using(crate::proofs::Places::file_passes))]
pub fn is_file(b: &[u8]) -> bool
    ensures { result ≡ is_file b.now }
{
    registers::check(b).is_ok()
}
