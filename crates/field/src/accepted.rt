// The conditions under which f is accepted, as the calls test them (document 01, "Two notations").
ghost use Rattle.std.specs.Prelude.{◌≡◌, cond, ◌/◌, ◌^◌, ◌<◌, Some, None};
ghost use Rattle.refusals.specs.Verdicts.{first_of};
ghost use Rattle.refusals.specs.Answers.{checked_of};
ghost use Rattle.field.specs.Field.{squared};
ghost use Rattle.field.specs.Accepted.{degree_outside, divided};
ghost use Rattle.field.specs.Refusals.{field_order, too_large_lem};

use super::ring::Ring;
use gf2::{LIMIT, Spread, degree_of, greatest_common, square};
use refusals::{Fault, Refusal, refused};

// Refusal 1: the degree of f is not 2 to LIMIT.
pub fn degree_outside(f: u64) -> bool
    ensures { result ≡ degree_outside f }
{
    let n = degree_of(f);
    n < 2 || LIMIT < n as usize
}

// Refusal 4: a is no element of a field of degree n.
pub fn too_large(n: u32, a: u64) -> bool
    requires { n < 64 }
    ensures { result ≡ too_large_lem n a }
{
    1u64 << n <= a
}

// a squared k times in a row.
pub fn squared_times(table: &Spread, ring: Ring, k: u32, a: u64) -> u64
    requires { a < 2 ^ ring.n }
    ensures { result ≡ squared ring.f ring.n k a }
{
    let mut y = a;
    for _ in 0..k {
        y = square(table, ring.f, ring.n, y);
    }
    y
}

// What x has become half way through its n squarings; nothing where f is divided. f, of degree n, has a divisor of degree 1 to n-1
// exactly if, for some i from 1 to n/2, f and x^(2^i) + x have a common divisor other than 1.
fn squared_half(table: &Spread, ring: Ring) -> Option<u64>
    ensures { result ≡ cond (divided ring.f ring.n) None (Some (squared ring.f ring.n (ring.n / 2) 2)) }
{
    let mut y: u64 = 2;
    for _ in 0..ring.n / 2 {
        y = square(table, ring.f, ring.n, y);
        if greatest_common(ring.f, y ^ 2) != 1 {
            return None;
        }
    }
    Some(y)
}

// The verdict of conditions 2 and 3.
pub fn field_verdict(table: &Spread, ring: Ring) -> Result<(), Refusal>
    ensures { result ≡ checked_of (first_of (field_order ring.f)) }
{
    let Some(half) = squared_half(table, ring) else {
        return refused(Fault::Divided);
    };
    if squared_times(table, ring, ring.n - ring.n / 2, half) != 2 {
        return refused(Fault::Strays);
    }
    Ok(())
}
