// The behavior digest of an instruction: privilege, flags access, operand accesses and the implicit list, in 32 bits.
#![tactic(auto)]

ghost use Rattle.std.specs.Prelude.{◌≡◌, cond, ◌<◌};
ghost use Rattle.access.specs.Accesses.{access_number, access_of};
ghost use Rattle.access.specs.Privileges.{level_number, level_of};
ghost use Rattle.digest.specs.Digests.{empty_digest, privilege_of, flags_access, access_at, is_nontrivial, is_complex};
ghost use Rattle.digest.specs.Digests.{with_privilege, with_flags, with_nontrivial, with_complex};
ghost use Rattle.digest.specs.Digests.{operand_answer, list_answer, then};

use access::{Access, PrivilegeLevel};
use laws::Refusal;

// The fields are those of document 01: `behavior`, `operand_access` and `extra`.
#[derive(Clone, Copy, PartialEq, Eq)]
pub struct BehaviorDigest {
    pub behavior: u8,
    pub operands: u8,
    pub extra: u16,
}

impl BehaviorDigest {
    pub fn empty() -> BehaviorDigest
        ensures { result ≡ empty_digest }
    {
        BehaviorDigest {
            behavior: 0,
            operands: 0,
            extra: 0,
        }
    }

    #[tactic(auto, using(crate::proofs::Laws::lowest), unfolding(crate::specs::Digests::with_behavior))]
    pub fn set_privilege(mut self, level: PrivilegeLevel) -> BehaviorDigest
        ensures { result ≡ with_privilege (level_number level) self }
    {
        self.behavior = self.behavior / 4 * 4 + level.to_bits();
        self
    }

    pub fn privilege_level(self) -> PrivilegeLevel
        ensures { result ≡ level_of (privilege_of self) }
    {
        PrivilegeLevel::from_bits(self.behavior)
    }

    #[tactic(auto, unfolding(crate::specs::Digests::with_behavior))]
    pub fn set_flags_access(mut self, access: Access) -> BehaviorDigest
        ensures { result ≡ with_flags (access_number access) self }
    {
        let b = self.behavior;
        self.behavior = b / 16 * 16 + access.to_bits() * 4 + b % 4;
        self
    }

    pub fn flags_access(self) -> Access
        ensures { result ≡ access_of (flags_access self) }
    {
        Access::from_bits(self.behavior / 4)
    }

    // An operand above 3 is refused.
    // Stays: any number of an operand, and of a list below, has an answer: `operand_answer` and `list_answer` refuse the others.
    #[tactic(auto, using(crate::proofs::Laws::lowest, crate::proofs::Laws::highest, crate::proofs::Laws::operand_refused), unfolding(crate::specs::Digests::operand_answer, crate::specs::Digests::with_access))]
    pub fn set_operand(mut self, operand: u8, access: Access) -> Result<BehaviorDigest, Refusal>
        ensures { result ≡ operand_answer operand (access_number access) self }
    {
        let a = access.to_bits();
        let x = self.operands;
        self.operands = match operand {
            0 => x / 4 * 4 + a,
            1 => x / 16 * 16 + a * 4 + x % 4,
            2 => x / 64 * 64 + a * 16 + x % 16,
            3 => a * 64 + x % 64,
            _ => return Err(Refusal::Outside),
        };
        Ok(self)
    }

    // No access for an operand above 3: there is none.
    #[tactic(auto, using(crate::proofs::Laws::no_access, crate::proofs::Laws::access_shifted))]
    pub fn operand_access(self, operand: u8) -> Access
        ensures { result ≡ access_of (access_at self operand) }
    {
        if 3 < operand {
            return Access::None;
        }
        Access::from_bits(self.operands >> (operand * 2))
    }

    // A list above 28 is refused.
    #[tactic(auto, using(crate::proofs::Laws::list_taken, crate::proofs::Laws::list_refused), unfolding(crate::specs::Digests::with_list))]
    pub fn set_implicit_ops(mut self, list: u16) -> Result<BehaviorDigest, Refusal>
        ensures { result ≡ list_answer list self }
    {
        if 28 < list {
            return Err(Refusal::Outside);
        }
        self.extra = list;
        Ok(self)
    }

    pub fn implicit_list(self) -> u16
        ensures { result ≡ self.extra }
    {
        self.extra
    }

    // Stays: document 01's setters, one a field, by value with `mut self`; one for both would take the bit's place as two numbers.
    #[tactic(auto, unfolding(crate::specs::Digests::with_behavior))]
    pub fn set_nontrivial(mut self, state: bool) -> BehaviorDigest
        ensures { result ≡ with_nontrivial state self }
    {
        let b = self.behavior;
        self.behavior = b / 32 * 32 + u8::from(state) * 16 + b % 16;
        self
    }

    pub fn is_nontrivial(self) -> bool
        ensures { result ≡ is_nontrivial self }
    {
        laws::is_set(self.behavior as u32, 4)
    }

    #[tactic(auto, unfolding(crate::specs::Digests::with_behavior))]
    pub fn set_complex(mut self, state: bool) -> BehaviorDigest
        ensures { result ≡ with_complex state self }
    {
        let b = self.behavior;
        self.behavior = b / 64 * 64 + u8::from(state) * 32 + b % 32;
        self
    }

    pub fn is_complex(self) -> bool
        ensures { result ≡ is_complex self }
    {
        laws::is_set(self.behavior as u32, 5)
    }
}

// A chain of setters that can refuse: the first refusal stands.
// Stays: one for each of the two setters, as they have; one over both would take the setter as a closure, and say less by its name.
pub fn then_operand(
    answer: Result<BehaviorDigest, Refusal>,
    operand: u8,
    access: Access,
) -> Result<BehaviorDigest, Refusal>
    ensures { result ≡ then answer (operand_answer operand (access_number access)) }
{
    answer?.set_operand(operand, access)
}

pub fn then_implicit_ops(
    answer: Result<BehaviorDigest, Refusal>,
    list: u16,
) -> Result<BehaviorDigest, Refusal>
    ensures { result ≡ then answer (list_answer list) }
{
    answer?.set_implicit_ops(list)
}
