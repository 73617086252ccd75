// Exception vectors, and sets of them.
ghost use Rattle.std.specs.Prelude.{◌≡◌, ◌<◌};
ghost use Rattle.access.specs.Exceptions.{exception_of, info_of, any_of, none_of, set_of, then_set, may_of, with_bit};

use crate::{Exception, ExceptionInfo};
use laws::Refusal;

// A set has 32 bits.
const LAST_VECTOR: u8 = 31;

// Named as in the Intel manual's table of protected-mode exceptions, where 9 and 15 are reserved.
impl Exception {
    // Divide Error
    pub const DE: Exception = Exception { vector: 0 };
    // Debug
    pub const DB: Exception = Exception { vector: 1 };
    // Non-Maskable Interrupt
    pub const NMI: Exception = Exception { vector: 2 };
    // Breakpoint
    pub const BP: Exception = Exception { vector: 3 };
    // Overflow
    pub const OF: Exception = Exception { vector: 4 };
    // BOUND Range Exceeded
    pub const BR: Exception = Exception { vector: 5 };
    // Invalid Opcode (Undefined Opcode)
    pub const UD: Exception = Exception { vector: 6 };
    // Device Not Available (No Math Coprocessor)
    pub const NM: Exception = Exception { vector: 7 };
    // Double Fault
    pub const DF: Exception = Exception { vector: 8 };
    // Invalid TSS
    pub const TS: Exception = Exception { vector: 10 };
    // Segment Not Present
    pub const NP: Exception = Exception { vector: 11 };
    // Stack Segment Fault
    pub const SS: Exception = Exception { vector: 12 };
    // General Protection
    pub const GP: Exception = Exception { vector: 13 };
    // Page Fault
    pub const PF: Exception = Exception { vector: 14 };
    // Floating-Point Error (Math Fault)
    pub const MF: Exception = Exception { vector: 16 };
    // Alignment Check
    pub const AC: Exception = Exception { vector: 17 };
    // Machine Check
    pub const MC: Exception = Exception { vector: 18 };
    // SIMD Floating-Point Exception
    pub const XM: Exception = Exception { vector: 19 };
    // Virtualization Exception
    pub const VE: Exception = Exception { vector: 20 };
    // Control Protection Exception
    pub const CP: Exception = Exception { vector: 21 };
}

impl From<u8> for Exception {
    ghost from_gives = { λ v e. e ≡ exception_of v };

    fn from(vector: u8) -> Exception {
        Exception { vector }
    }
}

impl From<Exception> for u8 {
    ghost from_gives = { λ e v. v ≡ e.vector };

    fn from(e: Exception) -> u8 {
        e.vector
    }
}

// A set with bit k set to b: a bit is taken off and then added, so that nothing carries.
// Stays: k < 32 is a fact about one number; a type that holds it would be built at each call.
pub fn with_bit(set: u32, k: u8, b: bool) -> u32
    requires { k < 32 }
    ensures { result ≡ with_bit set k b }
{
    let old = (set >> k) % 2;
    let cleared = set - (old << k);
    if b { cleared + (1 << k) } else { cleared }
}

impl ExceptionInfo {
    pub fn empty() -> ExceptionInfo
        ensures { result ≡ info_of 0 }
    {
        ExceptionInfo { vectors: 0 }
    }

    pub fn any(self) -> bool
        ensures { result ≡ any_of self }
    {
        self.vectors != 0
    }

    pub fn none(self) -> bool
        ensures { result ≡ none_of self }
    {
        !self.any()
    }

    // Whether the exception may be raised. A vector above 31 is refused.
    #[tactic(auto, using(crate::proofs::Laws::may_taken, crate::proofs::Laws::may_refused))]
    pub fn may(self, e: Exception) -> Result<bool, Refusal>
        ensures { result ≡ may_of self e.vector }
    {
        if LAST_VECTOR < e.vector {
            return Err(Refusal::Outside);
        }
        Ok(laws::is_set(self.vectors, e.vector))
    }

    // The set with the exception in it or not, as b says. A vector above 31 is refused.
    #[tactic(auto, using(crate::proofs::Laws::set_taken, crate::proofs::Laws::set_refused))]
    pub fn set(mut self, e: Exception, b: bool) -> Result<ExceptionInfo, Refusal>
        ensures { result ≡ set_of self e.vector b }
    {
        if LAST_VECTOR < e.vector {
            return Err(Refusal::Outside);
        }
        self.vectors = with_bit(self.vectors, e.vector, b);
        Ok(self)
    }
}

// A chain of settings: one more, where none was refused before; the first refusal stands.
pub fn then_set(
    answer: Result<ExceptionInfo, Refusal>,
    e: Exception,
    b: bool,
) -> Result<ExceptionInfo, Refusal>
    ensures { result ≡ then_set answer e.vector b }
{
    answer?.set(e, b)
}
