// The operands that an instruction has without naming them: the lists 0 to 28.
#![tactic(auto)]

ghost use Rattle.std.specs.Prelude.{◌≡◌};
ghost use Rattle.laws.specs.Tests.{any};
ghost use Rattle.implicit.specs.Codes.{entry_of, row_of};
ghost use Rattle.implicit.specs.Lists.{implicit_of, entry_at};
ghost use Rattle.implicit.specs.Ways.{access_by};
ghost use Rattle.implicit.specs.Memory.{memory_form, memory_entry, memory_at};

use access::Access;
use registers::RegSpec;
use registers::names::AL;

// An entry reads or writes.
#[derive(Clone, Copy)]
pub enum Way {
    Read,
    Write,
}

impl From<Way> for Access {
    ghost from_gives = { λ w a. a ≡ access_by w };

    fn from(way: Way) -> Access {
        match way {
            Way::Read => Access::Read,
            Way::Write => Access::Write,
        }
    }
}

// One of four operand forms. A displacement below 0 is held as two to the 32 less.
#[derive(Clone, Copy)]
pub enum ImplicitOperand {
    Register(RegSpec),
    MemDeref(RegSpec),
    Disp(RegSpec, u32),
    MemBaseIndexScale(RegSpec, RegSpec, u8),
}

// An entry of a list: an operand, or the operand slot of a string instruction (`Deref_rdi`).
#[derive(Clone, Copy)]
pub enum Entry {
    Operand(ImplicitOperand, Way),
    Slot(u8, Way),
}

const MINUS_8: u32 = 0xFFFF_FFF8;

// A bit for each list that has a memory form: 15, 16 and 24 to 28.
// Stays: a list is a number of document 01, as a digest holds it, and any number has an answer.
const MEMORY_LISTS: u32 = 0x1F01_8000;

// A list as four codes of four hexadecimal digits, its first entry's the lowest, 0 past its last. The compiler makes one table of
// constants of this match; an array it would lay out anew at each call.
// Stays: a table in code is a match (docs/DECISIONS.md).
fn row_of(list: u16) -> u64
    ensures { result ≡ row_of list }
{
    match list {
        // MUL
        1 => 0x0000_0000_0220_0140,
        2 => 0x0000_0222_0220_0120,
        3 => 0x0000_0202_0200_0110,
        4 => 0x0000_0202_0200_0100,
        // DIV
        5 => 0x0000_0000_0220_0120,
        6 => 0x0222_0220_0122_0120,
        7 => 0x0202_0200_0112_0110,
        8 => 0x0202_0200_0102_0100,
        // CMPXCHG
        9 => 0x0000_0000_0240_0140,
        10 => 0x0000_0000_0220_0120,
        11 => 0x0000_0000_0200_0110,
        12 => 0x0000_0000_0200_0100,
        // MULX
        13 => 0x0000_0000_0000_0112,
        14 => 0x0000_0000_0000_0102,
        // VMASKMOVDQU
        15 => 0x0000_0000_0000_0417,
        16 => 0x0000_0000_0000_0407,
        // PCMPESTRI, PCMPESTRM
        17 => 0x0000_0201_0112_0110,
        18 => 0x0000_0201_0102_0100,
        19 => 0x0000_0250_0112_0110,
        20 => 0x0000_0250_0102_0100,
        // LOOP
        21 => 0x0000_0000_0201_0101,
        22 => 0x0000_0000_0221_0121,
        23 => 0x0000_0000_0201_0111,
        // String
        24 => 0x0000_0000_0800_0700,
        25 => 0x0801_0701_0800_0700,
        // Push, pop, XLAT
        26 => 0x0000_0504_0204_0104,
        27 => 0x0000_0304_0204_0104,
        28 => 0x0000_0000_0000_0603,
        _ => 0,
    }
}

// The hexadecimal digits of a code are 0, a form, a bank and a number.
// Stays: no TryFrom: codes are known in this file alone, and what is none is no error but the end of a list.
#[tactic(auto, unfolding(crate::specs::Codes::entry_of))]
fn entry_of(code: u16) -> Option<Entry>
    ensures { result ≡ entry_of code }
{
    let number = (code % 16) as u8;
    let x = RegSpec {
        bank: (code / 16 % 16) as u8,
        number,
    };
    let entry = match code / 256 {
        1 => Entry::Operand(ImplicitOperand::Register(x), Way::Read),
        2 => Entry::Operand(ImplicitOperand::Register(x), Way::Write),
        3 => Entry::Operand(ImplicitOperand::MemDeref(x), Way::Read),
        4 => Entry::Operand(ImplicitOperand::MemDeref(x), Way::Write),
        5 => Entry::Operand(ImplicitOperand::Disp(x, MINUS_8), Way::Write),
        6 => Entry::Operand(ImplicitOperand::MemBaseIndexScale(x, AL, 1), Way::Read),
        7 => Entry::Slot(number, Way::Read),
        8 => Entry::Slot(number, Way::Write),
        _ => return None,
    };
    Some(entry)
}

// Entry i of a list: none past the last, and of a list that is not there.
pub fn implicit_entry(list: u16, i: u8) -> Option<Entry>
    ensures { result ≡ entry_at list i }
{
    if i > 3 {
        return None;
    }
    let rest = row_of(list) >> (16 * i);
    entry_of((rest % 65536) as u16)
}

fn is_memory_form(o: ImplicitOperand) -> bool
    ensures { result ≡ memory_form o }
{
    !matches!(o, ImplicitOperand::Register(_))
}

pub fn is_memory(e: Entry) -> bool
    ensures { result ≡ memory_entry e }
{
    match e {
        Entry::Operand(o, _) => is_memory_form(o),
        Entry::Slot(_, _) => true,
    }
}

// The same of what `implicit_entry` answers: past a list's end there is no memory.
pub fn is_memory_at(e: Option<Entry>) -> bool
    ensures { result ≡ memory_at e }
{
    match e {
        Some(e) => is_memory(e),
        None => false,
    }
}

// Some entry of a list is a memory form.
pub fn lists_memory(list: u16) -> bool
    ensures { result ≡ any memory_entry (implicit_of list) }
{
    list <= 28 && (MEMORY_LISTS >> list) % 2 == 1
}
