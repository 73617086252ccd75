// What a reader of a stream answers. No code stands here: the definitions are in specs/, what is promised of them too, and the proofs in
// proofs/. The crate `reader` has the code.
#![tactic(auto)]

// The answer of one call. Whether a record or a bad file finished, and how many bytes of the chunk are taken; n is the log's length, or
// after 7 the bytes needed; the opcode is 0 but after 4.
// Stays: the numbers of a C answer; CallUnpacks and CallsTake speak of the number, n and the opcode each by itself.
#[derive(Clone, Copy)]
pub struct Call {
    pub number: u8,
    pub finished: bool,
    pub taken: usize,
    pub n: usize,
    pub opcode: u16,
}
