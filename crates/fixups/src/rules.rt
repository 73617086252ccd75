// The fix-ups: what an opcode, its operand count and its prefixes change in the digest.
ghost use Rattle.std.specs.Prelude.{◌≡◌, cond, ◌≤◌};
ghost use Rattle.access.specs.Accesses.{access_number};
ghost use Rattle.digest.specs.Digests.{with_access, with_list};
ghost use Rattle.definition.specs.Tables.{rule_of, imul, nop, movhalf, extrq, insertq, return};
ghost use Rattle.definition.specs.Behaviors.{operand_width, by_width, fix_up};
ghost use Rattle.fixups.specs.Fields.{fields_of};

use access::Access;
use digest::BehaviorDigest;
use record::Record;
use registers::RegSpec;

// The spec `RegMMM`, whose register is `regs[1]`.
// Stays: specs, and lists below, are numbers of document 01, as a record and a digest hold them.
pub const REG_MMM: u8 = 2;

// The first of four lists, for the widths 1, 2, 4 and 8.
const MUL_LISTS: u16 = 1;

const DIV_LISTS: u16 = 5;

const CMPXCHG_LISTS: u16 = 9;

// The setters of a digest, where they do not refuse.
// Stays: two setters and two promises: what a list and an operand must be differs, as do the values that are set.
#[tactic(auto, using(digest::proofs::Laws::list_taken))]
fn with_list(d: BehaviorDigest, list: u16) -> BehaviorDigest
    requires { list ≤ 28 }
    ensures { result ≡ with_list list d }
{
    d.set_implicit_ops(list).unwrap()
}

fn one_list_of(d: BehaviorDigest, test: bool, yes: u16, no: u16) -> BehaviorDigest
    requires { (yes ≤ 28) × (no ≤ 28) }
    ensures { result ≡ with_list (cond test yes no) d }
{
    if test {
        with_list(d, yes)
    } else {
        with_list(d, no)
    }
}

#[tactic(auto, using(digest::proofs::Laws::operand_taken))]
fn with_access(d: BehaviorDigest, operand: u8, access: Access) -> BehaviorDigest
    requires { operand ≤ 3 }
    ensures { result ≡ with_access operand (access_number access) d }
{
    d.set_operand(operand, access).unwrap()
}

#[tactic(auto, unfolding(definition::specs::Behaviors::operand_width))]
fn operand_width(x: Record) -> u8
    ensures { result ≡ operand_width x }
{
    if x.specs[0] == REG_MMM {
        x.regs[1].width()
    } else {
        x.size
    }
}

// Stays: four arms for four widths, as document 01 lists them.
#[tactic(auto, unfolding(definition::specs::Behaviors::by_width))]
fn by_width(x: Record, first: u16) -> BehaviorDigest
    requires { first ≤ 9 }
    ensures { result ≡ by_width first (operand_width x) x.digest }
{
    let d = x.digest;
    match operand_width(x) {
        1 => with_list(d, first),
        2 => with_list(d, first + 1),
        4 => with_list(d, first + 2),
        _ => with_list(d, first + 3),
    }
}

// Stays: an arm for each count of operands, as document 01 lists them.
#[tactic(auto, unfolding(definition::specs::Behaviors::fix_up, definition::specs::Behaviors::imul_fix))]
fn fix_imul(x: Record) -> BehaviorDigest
    ensures { result ≡ fix_up imul x x.digest }
{
    let d = x.digest;
    let count = x.count;
    match count {
        1 => by_width(x, MUL_LISTS),
        2 => {
            let changed = with_access(d, 0, Access::ReadWrite);
            with_access(changed, 1, Access::Read)
        }
        3 => {
            let first = with_access(d, 0, Access::Write);
            let read = with_access(first, 1, Access::Read);
            with_access(read, 2, Access::Read)
        }
        _ => d,
    }
}

#[tactic(auto, unfolding(definition::specs::Behaviors::fix_up))]
fn fix_nop(x: Record) -> BehaviorDigest
    ensures { result ≡ fix_up nop x x.digest }
{
    let d = x.digest;
    if x.count == 1 {
        with_access(d, 0, Access::None)
    } else {
        d
    }
}

#[tactic(auto, unfolding(definition::specs::Behaviors::fix_up, definition::specs::Behaviors::movhalf_fix))]
fn fix_movhalf(x: Record) -> BehaviorDigest
    ensures { result ≡ fix_up movhalf x x.digest }
{
    let d = x.digest;
    if x.count == 2 {
        with_access(d, 0, Access::ReadWrite)
    } else {
        let written = with_access(d, 0, Access::Write);
        with_access(written, 2, Access::Read)
    }
}

#[tactic(auto, unfolding(definition::specs::Behaviors::fix_up))]
fn fix_extrq(x: Record) -> BehaviorDigest
    ensures { result ≡ fix_up extrq x x.digest }
{
    let d = x.digest;
    if x.count > 2 {
        with_access(d, 2, Access::Read)
    } else {
        d
    }
}

#[tactic(auto, unfolding(definition::specs::Behaviors::fix_up))]
fn fix_insertq(x: Record) -> BehaviorDigest
    ensures { result ≡ fix_up insertq x x.digest }
{
    let d = x.digest;
    let count = x.count;
    if count > 2 {
        let read = with_access(d, 2, Access::Read);
        with_access(read, 3, Access::Read)
    } else {
        d
    }
}

#[tactic(auto, unfolding(definition::specs::Behaviors::fix_up))]
fn fix_return(x: Record) -> BehaviorDigest
    ensures { result ≡ fix_up return x x.digest }
{
    let d = x.digest;
    if x.count == 0 {
        d
    } else {
        with_access(d, 0, Access::Read)
    }
}

// The rule of the opcode, on the base digest.
// Stays: document 01's form, fix-ups choose by opcode number in a match.
#[tactic(auto, using(crate::proofs::Opcodes::unruled_below, crate::proofs::Opcodes::unruled_past))]
pub fn fix_up(x: Record) -> BehaviorDigest
    ensures { result ≡ fix_up (rule_of x.opcode) x x.digest }
{
    match x.opcode {
        // MUL, IMUL, DIV and IDIV, NOP, CMPXCHG
        1 => by_width(x, MUL_LISTS),
        2 => fix_imul(x),
        3 | 4 => by_width(x, DIV_LISTS),
        5 => fix_nop(x),
        6 => by_width(x, CMPXCHG_LISTS),
        // VMOVLPS, VMOVHPS, VMOVLPD, VMOVHPD
        7..=10 => fix_movhalf(x),
        // EXTRQ, INSERTQ, RETURN and RETF, MULX, VMASKMOVDQU
        11 => fix_extrq(x),
        12 => fix_insertq(x),
        13 | 14 => fix_return(x),
        15 => one_list_of(x.digest, x.vex_w(), 14, 13),
        16 => one_list_of(x.digest, x.address_size(), 15, 16),
        // PCMPESTRI and PCMPESTRM, each with its VEX form
        17 | 18 => one_list_of(x.digest, x.vex_w(), 18, 17),
        19 | 20 => one_list_of(x.digest, x.vex_w(), 20, 19),
        // LOOPNZ, LOOPZ, LOOP
        21..=23 => one_list_of(x.digest, x.address_size(), 23, 21),
        _ => x.digest,
    }
}

// The same by the fields that the rules look at: a record by value would go through memory at the call.
// Stays: the fields one by one, and zeros for the others (docs/DECISIONS.md).
#[tactic(auto, unfolding(crate::specs::Fields::fields_of))]
pub fn fix_fields(
    opcode: u16,
    count: u8,
    spec: u8,
    bank: u8,
    size: u8,
    prefixes: u8,
    d: BehaviorDigest,
) -> BehaviorDigest
    ensures { result ≡ fix_up (rule_of opcode) (fields_of opcode count spec bank size prefixes d) d }
{
    let none = RegSpec { bank: 0, number: 0 };
    let second = RegSpec { bank, number: 0 };
    let specs = [spec, 0, 0, 0];
    let regs = [none, second, none, none];
    let x = Record {
        opcode,
        count,
        specs,
        regs,
        size,
        scale: 0,
        disp: 0,
        imm: 0,
        prefixes,
        mask: 0,
        digest: d,
        segment: 0,
    };
    fix_up(x)
}
