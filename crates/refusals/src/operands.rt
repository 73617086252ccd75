// What refusals 5 and 6 ask of the operands below count that are accessed.
ghost use Rattle.std.specs.Prelude.{◌≡◌, ℕ, Bool, not, eqb};
ghost use Rattle.digest.specs.Digests.{access_at};
ghost use Rattle.definition.specs.Tables.{shape_of};
ghost use Rattle.definition.specs.Behaviors.{is_memory};
ghost use Rattle.definition.specs.Refusals.{accessed, unnamed};
ghost use Rattle.definition.specs.declared.Shape.{Shape};

use access::Access;
use record::Record;
use registers::RegSpec;

// The access is other than none.
#[tactic(auto, using(digest::proofs::Laws::operand_number))]
fn is_accessed(x: Record, i: u8) -> bool
    ensures { result ≡ not (eqb (access_at x.digest i) 0) }
{
    let digest = x.digest;
    digest.operand_access(i) != Access::None
}

// Nothing, or Reg4 with a number that the bank of `regs[3]` has not.
// Stays: specs are numbers of document 01, as the record's bytes have them.
#[tactic(auto, using(crate::proofs::Shapes::fourth_unnamed, crate::proofs::Shapes::spec_named, crate::proofs::Shapes::no_spec, crate::proofs::Shapes::past_specs))]
fn is_unnamed(x: Record, spec: u8) -> bool
    ensures { result ≡ unnamed x (shape_of spec) }
{
    match spec {
        4 => !RegSpec::is_register(x.regs[3].bank, (x.imm % 256) as u8),
        1..=35 => false,
        _ => true,
    }
}

// Some operand below count is accessed, and its spec passes the test: what a shape is asked, by its spec.
fn accesses<F: Fn(u8) -> bool>(x: Record, test: F) -> bool
    requires { F.IsAlwaysCallable test }
    ensures { (p : Shape → Bool) → ((s : ℕ) (r : Bool) → F.post test s r → r ≡ p (shape_of s)) → result ≡ accessed p x }
{
    for i in 0..4 {
        if x.count <= i {
            return false;
        }
        if is_accessed(x, i) && test(x.spec(i)) {
            return true;
        }
    }
    false
}

pub fn accesses_unnamed(x: Record) -> bool
    ensures { result ≡ accessed (unnamed x) x }
{
    accesses(x, |spec| is_unnamed(x, spec))
}

pub fn accesses_memory(x: Record) -> bool
    ensures { result ≡ accessed is_memory x }
{
    accesses(x, |spec| operand::is_memory(spec))
}
