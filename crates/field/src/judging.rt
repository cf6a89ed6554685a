// The verdicts of the field calls' orders (document 01, "Refusal numbers"). A call judges its inputs first, and then works: with the ring that
// condition 1 leaves, where that is part of the order.
ghost use Rattle.std.specs.Prelude.{◌≡◌, [], ◌∷◌, ◌<◌};
ghost use Rattle.refusals.specs.Verdicts.{first_of};
ghost use Rattle.refusals.specs.Answers.{checked_of};
ghost use Rattle.field.specs.Judged.{Judged};
ghost use Rattle.field.specs.Refusals.{degree_rule, element_order, operand_order, check_order};

use super::accepted::{degree_outside, field_verdict, too_large};
use super::ring::Ring;
use gf2::{Spread, degree_of};
use refusals::{Fault, Refusal, refused};

impl Ring {
    // 1 alone: all that multiply and square refuse.
    pub fn of(f: u64) -> Result<Ring, Refusal>
        ensures { Judged f (degree_rule f ∷ []) result }
    {
        if degree_outside(f) {
            return Err(Refusal::from(Fault::DegreeOutside));
        }
        Ok(Ring { f, n: degree_of(f) })
    }
}

// 4 for two numbers, which have to be elements of a field of degree n.
pub fn elements_verdict(n: u32, a: u64, b: u64) -> Result<(), Refusal>
    requires { n < 64 }
    ensures { result ≡ checked_of (first_of (element_order n (a ∷ b ∷ []))) }
{
    if too_large(n, a) {
        return refused(Fault::TooLarge);
    }
    if too_large(n, b) {
        return refused(Fault::TooLarge);
    }
    Ok(())
}

// 1, then 4 for two numbers.
pub fn operands_verdict(f: u64, a: u64, b: u64) -> Result<Ring, Refusal>
    ensures { Judged f (operand_order f (a ∷ b ∷ [])) result }
{
    let ring = Ring::of(f)?;
    elements_verdict(ring.n, a, b)?;
    Ok(ring)
}

// 1, then 4 for one number: it is judged as the same number given twice.
pub fn operand_verdict(f: u64, a: u64) -> Result<Ring, Refusal>
    ensures { Judged f (operand_order f (a ∷ [])) result }
{
    operands_verdict(f, a, a)
}

// 1, 2, 3: the check of f, and a trace.
pub fn check_verdict(table: &Spread, f: u64) -> Result<Ring, Refusal>
    ensures { Judged f (check_order f) result }
{
    let ring = Ring::of(f)?;
    field_verdict(table, ring)?;
    Ok(ring)
}
