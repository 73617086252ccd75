// Registers by bank and number, and the register file that says what is known of them.
#![tactic(auto)]

pub mod names; // names.rt: the registers that lists, specs and segments name

ghost use Rattle.std.specs.Prelude.{◌≡◌, cond, ◌+◌, ◌<◌, ◌≤◌, ◌^◌, length, get_or};
ghost use Rattle.laws.specs.Refusals.{answered_by};
ghost use Rattle.laws.specs.Words.{number_at};
ghost use Rattle.registers.specs.Banks.{reg, bank_numbers, logged_numbers, is_register, is_logged, width_of};
ghost use Rattle.registers.specs.Files.{file_bytes, file_slots, file_values, file_length, file_of, FileLong, file_answer, value_of};
ghost use Rattle.registers.specs.Told.{file_refusal, two_values, is_told, told_numbers, told_slot, told_part, told_byte};

use laws::Refusal;

// How many values a file holds, and its length by its kind: the kind, four bytes of known bits, then the values. The plain kind holds
// the general registers and rip; the other holds the bases of fs and gs behind them.
// Stays: a kind is a byte of the format (docs/FORMAT.md), and any byte has an answer.
pub const FILE_KIND: u8 = 0x20;

pub const BASED_KIND: u8 = 0x21;

pub const PLAIN_SLOTS: usize = 17;

pub const FILE_SLOTS: usize = 19;

pub const FILE_BYTES: usize = 5 + 8 * PLAIN_SLOTS;

pub const BASED_BYTES: usize = 5 + 8 * FILE_SLOTS;

// A register: its bank, and its number there.
// Stays: bank and number are bytes of the record, the file and the log, and any two have an answer.
#[derive(Clone, Copy, PartialEq, Eq)]
pub struct RegSpec {
    pub bank: u8,
    pub number: u8,
}

// What is known of a register.
pub type Value = Option<u64>;

// What is known of the two registers of an address.
#[derive(Clone, Copy)]
pub struct TwoValues {
    pub base: Value,
    pub index: Value,
}

// The sixteen general registers, rip, and the bases of fs and gs, and a bit for each that is known.
// Stays: document 01's form, the file as one struct by value; the known bits are those of the format.
#[derive(Clone, Copy)]
pub struct RegisterFile {
    pub values: [u64; FILE_SLOTS],
    pub known: u32,
}

impl RegSpec {
    // Whether the table has it: what a record may name.
    #[tactic(auto, unfolding(crate::specs::Banks::is_register))]
    pub fn is_register(bank: u8, number: u8) -> bool
        ensures { result ≡ is_register bank number }
    {
        number < bank_numbers(bank)
    }

    // What an event may name: the bases of fs and gs too.
    #[tactic(auto, unfolding(crate::specs::Banks::is_logged))]
    pub fn is_logged(bank: u8, number: u8) -> bool
        ensures { result ≡ is_logged bank number }
    {
        number < logged_numbers(bank)
    }

    // How many bytes it has.
    #[tactic(auto, unfolding(crate::specs::Banks::width_of))]
    pub fn width(self) -> u8
        ensures { result ≡ width_of self }
    {
        let bank = self.bank;
        match bank {
            0 => 8,
            1 => 4,
            2 => 2,
            3 => 1,
            4 => 1,
            5 => 16,
            6 => 32,
            7 => 64,
            8 => 8,
            9 => 8,
            10 => 4,
            11 => 8,
            12 => 8,
            13 => 8,
            _ => 0,
        }
    }
}

// How many registers each bank has. An arm for each bank: the compiler makes one constant table of them, where an array would be
// built at each call.
// Stays: a table in code is a match (docs/DECISIONS.md), here and for the tables below, each with numbers of its own.
fn bank_numbers(bank: u8) -> u8
    ensures { result ≡ get_or bank_numbers bank 0 }
{
    match bank {
        0 => 16, // Q
        1 => 16, // D
        2 => 16, // W
        3 => 16, // rB
        4 => 8, // B
        5 => 32, // X
        6 => 32, // Y
        7 => 32, // Z
        8 => 8, // K
        9 => 1, // RIP
        10 => 1, // EIP
        11 => 1, // RFLAGS
        12 => 32, // other
        _ => 0,
    }
}

fn logged_numbers(bank: u8) -> u8
    ensures { result ≡ get_or logged_numbers bank 0 }
{
    if bank == 13 { 2 } else { bank_numbers(bank) }
}

impl RegisterFile {
    // The file in its bytes, where they are not refused.
    #[tactic(auto, using(laws::proofs::Answered::handed_on, laws::proofs::Answered::passed, crate::proofs::Answers::file_answered, crate::proofs::Answers::file_long))]
    pub fn from_bytes(b: &[u8]) -> Result<RegisterFile, Refusal>
        ensures { result ≡ file_answer b.now }
    {
        check(b)?;
        Ok(RegisterFile::parse(b))
    }

    #[tactic(auto, unfolding(crate::specs::Files::file_of, crate::specs::Files::numbers_from))]
    pub fn parse(b: &[u8]) -> RegisterFile
        requires { (file_bytes ≤ length b.now) × FileLong b.now }
        ensures { result ≡ file_of b.now }
    {
        let known = laws::u32_at(b, 1);
        let bases = bases_in(b);
        let values = [
            laws::u64_at(b, 5),
            laws::u64_at(b, 13),
            laws::u64_at(b, 21),
            laws::u64_at(b, 29),
            laws::u64_at(b, 37),
            laws::u64_at(b, 45),
            laws::u64_at(b, 53),
            laws::u64_at(b, 61),
            laws::u64_at(b, 69),
            laws::u64_at(b, 77),
            laws::u64_at(b, 85),
            laws::u64_at(b, 93),
            laws::u64_at(b, 101),
            laws::u64_at(b, 109),
            laws::u64_at(b, 117),
            laws::u64_at(b, 125),
            laws::u64_at(b, 133),
            bases.fs,
            bases.gs,
        ];
        RegisterFile { values, known }
    }

    // What is known of a register: a part of one of its values. One that the table has not is unknown.
    pub fn value(self, x: RegSpec) -> Value
        ensures { result ≡ value_of self x }
    {
        value_in(&self, x)
    }

    // The same of a general register and of the base of fs or gs, by its number: short enough to be inlined, so that no file is copied.
    // Stays: through `value` alone a visit took more instructions (docs/PERFORMANCE.md, the row of registers and bases by number).
    pub fn general(self, number: u8) -> Value
        ensures { result ≡ value_of self (reg 0 number) }
    {
        whole(&self, number)
    }

    pub fn base(self, number: u8) -> Value
        ensures { result ≡ value_of self (reg 13 number) }
    {
        base_in(&self, number)
    }

    // The same of two registers, the base and the index of an address: the file is copied once for both.
    pub fn two_values(self, base: RegSpec, index: RegSpec) -> TwoValues
        ensures { result ≡ two_values self base index }
    {
        TwoValues {
            base: value_in(&self, base),
            index: value_in(&self, index),
        }
    }
}

// The values of fs and gs in a file's bytes: 0 in a kind that has none.
// Stays: no twin of TwoValues but in form: this has the numbers of the bytes, that what is known; one over both would lose the names.
#[derive(Clone, Copy)]
struct Bases {
    fs: u64,
    gs: u64,
}

#[tactic(auto, using(crate::proofs::Segments::no_fs, crate::proofs::Segments::no_gs))]
fn bases_in(b: &[u8]) -> Bases
    requires { FileLong b.now }
    ensures { (result.fs ≡ number_at b.now file_bytes 8) × (result.gs ≡ number_at b.now (file_bytes + 8) 8) }
{
    if b.len() == BASED_BYTES {
        return Bases {
            fs: laws::u64_at(b, FILE_BYTES),
            gs: laws::u64_at(b, FILE_BYTES + 8),
        };
    }
    Bases { fs: 0, gs: 0 }
}

// The length of a file by its kind, 0 for no kind.
#[tactic(auto, unfolding(crate::specs::Files::file_length))]
pub fn length_of(kind: u8) -> usize
    ensures { result ≡ file_length kind }
{
    match kind {
        FILE_KIND => FILE_BYTES,
        BASED_KIND => BASED_BYTES,
        _ => 0,
    }
}

const PLAIN_END: u32 = 1 << PLAIN_SLOTS;

const BASED_END: u32 = 1 << FILE_SLOTS;

// The first number that is no known bits of a file of a kind.
#[tactic(auto, unfolding(crate::specs::Files::file_values))]
fn known_end(kind: u8) -> u32
    ensures { result ≡ 2 ^ file_values kind }
{
    match kind {
        FILE_KIND => PLAIN_END,
        BASED_KIND => BASED_END,
        _ => 1,
    }
}

// Whether bytes are a file: else they are refused.
#[tactic(auto, using(crate::proofs::Answers::refused_empty, crate::proofs::Answers::refused_length, crate::proofs::Answers::has_bits, crate::proofs::Answers::not_refused, crate::proofs::Answers::refused_bits, crate::proofs::Answers::bad, crate::proofs::Answers::good))]
pub fn check(b: &[u8]) -> Result<(), Refusal>
    ensures { result ≡ answered_by (file_refusal b.now) tt }
{
    if b.len() == 0 {
        return Err(Refusal::BadFile);
    }
    if b.len() != length_of(b[0]) {
        return Err(Refusal::BadFile);
    }
    if laws::u32_at(b, 1) < known_end(b[0]) {
        Ok(())
    } else {
        Err(Refusal::BadFile)
    }
}

// An element of a lent array is read where it stands, and that of a file by value once the whole file is copied. Most registers are
// whole; what a file tells of the others is found without a jump on the bank.
#[tactic(auto, using(crate::proofs::Told::told_known))]
fn value_in(f: &RegisterFile, x: RegSpec) -> Value
    ensures { result ≡ value_of f.now x }
{
    if x.bank == 0 {
        return whole(f, x.number);
    }
    let k = slot_of(x);
    let i = k as usize;
    let part = part_of(x, f.values[i]);
    (is_told(x) & laws::is_set(f.known, k)).then_some(part)
}

// A general register.
#[tactic(auto, using(crate::proofs::Told::whole_known, crate::proofs::Told::whole_untold))]
fn whole(f: &RegisterFile, number: u8) -> Value
    ensures { result ≡ value_of f.now (reg 0 number) }
{
    let i = number as usize;
    if i < 16 {
        laws::is_set(f.known, number).then_some(f.values[i])
    } else {
        None
    }
}

// The base of fs, and that of gs.
#[tactic(auto, using(crate::proofs::Told::fs_known, crate::proofs::Told::gs_known, crate::proofs::Told::base_untold))]
fn base_in(f: &RegisterFile, number: u8) -> Value
    ensures { result ≡ value_of f.now (reg 13 number) }
{
    if number == 0 {
        return laws::is_set(f.known, 17).then_some(f.values[17]);
    }
    if number == 1 {
        return laws::is_set(f.known, 18).then_some(f.values[18]);
    }
    None
}

// Whether a file tells of it: general registers and their parts, RIP and EIP, the bases of fs and gs.
#[tactic(auto, unfolding(crate::specs::Told::is_told))]
fn is_told(x: RegSpec) -> bool
    ensures { result ≡ is_told x }
{
    x.number < told_numbers(x.bank)
}

#[tactic(auto, unfolding(crate::specs::Told::told_numbers))]
fn told_numbers(bank: u8) -> u8
    ensures { result ≡ told_numbers bank }
{
    match bank {
        0..=3 => 16,
        4 => 8,
        9 | 10 => 1,
        13 => 2,
        _ => 0,
    }
}

// Which of a file's values it is a part of, where a file tells of it.
#[tactic(auto, unfolding(crate::specs::Told::told_slot))]
fn slot_of(x: RegSpec) -> u8
    ensures { (result ≡ told_slot x) × (result < file_slots) }
{
    if x.bank == 13 {
        return 17 + x.number % 2;
    }
    if 4 < x.bank {
        return 16;
    }
    if x.bank == 4 {
        x.number % 4
    } else {
        x.number % 16
    }
}

// Which part of it: Q and RIP are the whole; ah, ch, dh and bh the second byte.
// Stays: a chain of tests, without a jump on the bank, as `value_in` says.
#[tactic(auto, unfolding(crate::specs::Told::told_part))]
fn part_of(x: RegSpec, word: u64) -> u64
    ensures { (result ≡ told_part x word) × (word < 2 ^ 64) }
{
    if x.bank == 4 {
        return byte_of(x.number, word);
    }
    if x.bank == 3 {
        return word % 0x100;
    }
    if x.bank == 2 {
        return word % 0x1_0000;
    }
    if x.bank == 1 {
        return word % 0x1_0000_0000;
    }
    if x.bank == 10 {
        word % 0x1_0000_0000
    } else {
        word
    }
}

#[tactic(auto, unfolding(crate::specs::Told::told_byte))]
fn byte_of(number: u8, word: u64) -> u64
    ensures { result ≡ told_byte number word }
{
    if 3 < number {
        word / 0x100 % 0x100
    } else {
        word % 0x100
    }
}
