// The type that the definitions of specs/ speak of. No code stands here.
#![tactic(auto)]

// What the judge says of a set of registers: it is accepted; it is not, for a bit that stands for no register, or for the first record
// that lacks a register, by its number from 0, and the lowest bit that it lacks.
// Stays: three answers; a Result would make a set that is not accepted an error, beside the list's refusals.
#[derive(Clone, Copy)]
pub enum Judgement {
    Accepted,
    NoSuchBit,
    Lacking(usize, u8),
}
