// The types that the definitions of specs/ speak of. No code stands here: what must be believed is read in specs/.
#![tactic(auto)]

use access::Access;
use implicit::ImplicitOperand;
use laws::Refusal;
use registers::RegSpec;

// What a spec stands for: a register by its place in `regs`, masked or not; Reg4; an immediate; or memory by its parts.
// Stays: document 01's table has Nothing, spec 0, among its forms; an Option of the others would have them two deep.
#[derive(Clone, Copy)]
pub enum Shape {
    Nothing,
    Register(u8, bool),
    Fourth,
    Immediate,
    Memory(Base, bool, Displacement, bool),
}

// The base of a memory spec: none, `regs[1]`, or a register that the spec names, as a place or as the destination of a string
// instruction, to which no segment applies.
// Stays: three forms beside none; an Option of them would have them two deep, and is no plainer.
#[derive(Clone, Copy)]
pub enum Base {
    NoBase,
    Based,
    Named(RegSpec),
    Destination(RegSpec),
}

// The displacement of a memory spec: none, the low 32 bits sign-extended, the whole, the low 32 bits zero-extended.
#[derive(Clone, Copy)]
pub enum Displacement {
    NoDisp,
    Disp32,
    DispU64,
    DispU32,
}

// A register that enters an address: as it is, or times a scale.
// Stays: two forms beside none; an Option of them would have them two deep, and is no plainer.
#[derive(Clone, Copy)]
pub enum Term {
    Absent,
    Plain(RegSpec),
    Scaled(RegSpec, u8),
}

// An address before any register is asked for its value, and whether the sum is cut to its low 32 bits.
// Stays: `cut` is a part of the address, and says nothing of whether there is one.
#[derive(Clone, Copy)]
pub struct Address {
    pub base: Term,
    pub index: Term,
    pub offset: u64,
    pub cut: bool,
}

// An event of a log. The last number of a memory event is its size.
#[derive(Clone, Copy, PartialEq, Eq)]
pub enum Event {
    RegisterRead(RegSpec),
    RegisterWrite(RegSpec),
    MemoryRead(u64, u8),
    MemoryWrite(u64, u8),
    UnknownRead(u8),
    UnknownWrite(u8),
}

// What reading a log at a place finds: an event and the place after it, a refusal, or the end.
// Stays: document 01's three cases, by which Reads, ReadsFrom and NamedAsCounted are stated; a Result of an Option has them two deep.
#[derive(Clone, Copy)]
pub enum Reading {
    Found(Event, usize),
    Bad(Refusal),
    Finished,
}

// An item of a listing, with its access: the flags, an implicit operand, or an explicit one by index and spec.
#[derive(Clone, Copy)]
pub enum Item {
    Flags(Access),
    Implicit(ImplicitOperand, Access),
    Explicit(u8, u8, Access),
}

// What visiting or listing answers: how many bytes it wrote, a refusal number, the opcode of a complex instruction (refused 4), or
// how many bytes it needs where it has too little room (refused 7).
#[derive(Clone, Copy)]
pub enum Answer {
    Done(usize),
    Refused(u8),
    Complex(u16),
    Short(usize),
}
