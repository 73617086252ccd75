// The whole log of a visit.
// Stays: document 01's form, each writer is lent the part of the log behind what was written so far, with room for its own events.
ghost use Rattle.std.specs.Prelude.{◌≡◌, ◌≤◌, length};
ghost use Rattle.laws.specs.Lending.{size, Logged};
ghost use Rattle.access.specs.Accesses.{access_number};
ghost use Rattle.definition.specs.Logs.{event_bytes};
ghost use Rattle.steps.specs.Parts.{Lent};
ghost use Rattle.steps.specs.Whole.{goes, flags_by, log_events};

use crate::explicit::put_operands;
use access::Access;
use address::Sources;
use event::put_register;
use implicit::Way;
use implied::put_list;
use record::Record;
use registers::names::RFLAGS;

// Whether an access goes this way.
fn goes(access: Access, way: Way) -> bool
    ensures { result ≡ goes way (access_number access) }
{
    match way {
        Way::Read => access.is_read(),
        Way::Write => access.is_write(),
    }
}

// The flags, where the record's access to them goes this way.
fn put_flags(log: &mut [u8], way: Way, x: Record) -> usize
    requires { size event_bytes (flags_by way x) ≤ length log.old }
    ensures { Logged event_bytes (flags_by way x) log.old log.new result }
{
    let digest = x.digest;
    if goes(digest.flags_access(), way) {
        put_register(log, way, RFLAGS)
    } else {
        0
    }
}

// The implicit list, flags read, flags write, then the explicit operands. The record is one after fix-ups, and `b` its lent bytes.
pub fn put_log(log: &mut [u8], b: &[u8], x: Record, at: Sources) -> usize
    requires { Lent x b.now × (size event_bytes (log_events x at) ≤ length log.old) }
    ensures { Logged event_bytes (log_events x at) log.old log.new result }
{
    let implied = at.implied;
    let a = put_list(log, x, implied);
    let c = a + put_flags(&mut log[a..], Way::Read, x);
    let d = c + put_flags(&mut log[c..], Way::Write, x);
    d + put_operands(&mut log[d..], b, x, at)
}
