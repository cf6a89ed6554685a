// The four field calls. Each takes any numbers, and its promise gives the case of its answer and document 01's numbers for it. Operands may
// arrive unreduced: a call answers for their remainders.
ghost use Rattle.std.specs.Prelude.{◌≡◌};
ghost use Rattle.gf2.specs.Poly.{rem, mul_mod};
ghost use Rattle.refusals.specs.Answers.{value_report, checked_report};
ghost use Rattle.field.specs.Field.{trace};
ghost use Rattle.field.specs.Answers.{multiply_answer, multiply_report, square_answer, square_report, trace_answer, trace_report, check_answer, check_report};

use super::judging::check_verdict;
use super::ring::Ring;
use gf2::{Spread, element_of};
use refusals::Refusal;

// The product of the elements that two words stand for. `gf2::multiply` reduces its second operand itself.
fn product(ring: Ring, a: u64, b: u64) -> u64
    ensures { result ≡ mul_mod ring.f ring.n (rem ring.f ring.n a) (rem ring.f ring.n b) }
{
    gf2::multiply(ring.f, ring.n, element_of(ring.f, ring.n, a), b)
}

// a times b modulo f.
pub fn multiply(f: u64, a: u64, b: u64) -> Result<u64, Refusal>
    ensures answer { result ≡ multiply_answer f a b }
    ensures report { value_report result ≡ multiply_report f a b }
{
    let ring = Ring::of(f)?;
    Ok(product(ring, a, b))
}

// The square of the element that a word stands for, by the table of spreads.
fn squared(ring: Ring, a: u64) -> u64
    ensures { result ≡ mul_mod ring.f ring.n (rem ring.f ring.n a) (rem ring.f ring.n a) }
{
    let table = Spread::new();
    gf2::square(&table, ring.f, ring.n, element_of(ring.f, ring.n, a))
}

// a times a modulo f.
pub fn square(f: u64, a: u64) -> Result<u64, Refusal>
    ensures answer { result ≡ square_answer f a }
    ensures report { value_report result ≡ square_report f a }
{
    let ring = Ring::of(f)?;
    Ok(squared(ring, a))
}

// The sum of the n conjugates of the element that a word stands for.
fn conjugates_sum(table: &Spread, ring: Ring, a: u64) -> u64
    ensures { result ≡ trace ring.f ring.n (rem ring.f ring.n a) }
{
    let mut sum: u64 = 0;
    let mut y = element_of(ring.f, ring.n, a);
    for _ in 0..ring.n {
        sum ^= y;
        y = gf2::square(table, ring.f, ring.n, y);
    }
    sum
}

// The trace of a.
pub fn trace(f: u64, a: u64) -> Result<u64, Refusal>
    ensures answer { result ≡ trace_answer f a }
    ensures report { value_report result ≡ trace_report f a }
{
    let table = Spread::new();
    let ring = check_verdict(&table, f)?;
    Ok(conjugates_sum(&table, ring, a))
}

// Whether f is accepted.
pub fn check(f: u64) -> Result<(), Refusal>
    ensures answer { result ≡ check_answer f }
    ensures report { checked_report result ≡ check_report f }
{
    let table = Spread::new();
    check_verdict(&table, f)?;
    Ok(())
}
