// The registers that enter the addresses of a record's memory accesses, joined to a set.
ghost use Rattle.std.specs.Prelude.{◌≡◌, not, eqb};
ghost use Rattle.sets.specs.Sets.{joined};
ghost use Rattle.fetching.specs.Needs.{refusal_alone, needs_of};
ghost use Rattle.fetch.specs.Parts.{list_needs};

use crate::operands::with_operands;
use crate::slots::with_register;
use record::Record;
use registers::names::{AL, RBX, RDI, RSP};
use registers::{FILE_BYTES, FILE_KIND};
use visiting::{MOST_BYTES, number_of, visit_accesses};

// The implicit lists that touch memory: by edi or rdi, on the stack, and XLAT by rbx and al.
// Stays: lists are numbers of document 01, and the arms read like its table.
fn with_list(set: u32, list: u16) -> u32
    ensures { result ≡ joined set (list_needs list) }
{
    match list {
        15..=16 => with_register(set, RDI),
        26..=27 => with_register(set, RSP),
        28 => with_register(with_register(set, RBX), AL),
        _ => set,
    }
}

// Whether visiting refuses the record: it is visited aside, under a file that knows nothing.
fn is_refused(b: &[u8]) -> bool
    ensures { result ≡ not (eqb (refusal_alone b.now) 0) }
{
    let mut file = [0u8; FILE_BYTES];
    file[0] = FILE_KIND;
    let mut aside = [0u8; MOST_BYTES];
    number_of(visit_accesses(b, &file, &mut aside, 0)) != 0
}

// A refused record needs nothing.
pub(crate) fn with_record(set: u32, b: &[u8]) -> u32
    ensures { result ≡ joined set (needs_of b.now) }
{
    if is_refused(b) {
        return set;
    }
    let x = fixups::fixed_up(Record::parse(b));
    with_operands(with_list(set, x.digest.extra), x)
}
