// An irreducible divisor of a polynomial all of whose irreducible divisors have one degree.
ghost use Rattle.std.specs.Prelude.{◌≡◌, ◌≤◌, ◌<◌};
ghost use Rattle.gf2.specs.Poly.{Degree, Element, Divides};
ghost use Rattle.field.specs.Field.{trace_to, Irreducible};

use super::lowest::Part;
use gf2::{degree_of, greatest_common, multiply, power};

// The sum of the first i conjugates of a modulo g, of degree m. The square of such a sum has the conjugates that follow, and a is added
// to them.
fn first_conjugates_sum(g: u64, m: u32, i: u32, a: u64) -> u64
    requires { Element g m a }
    ensures { result ≡ trace_to g m i a }
{
    let mut sum: u64 = 0;
    for _done in 0..i {
        sum = multiply(g, m, sum, sum) ^ a;
    }
    sum
}

// A divisor of a part's g, of degree m, other than 1 and g: the greatest common divisor of g and such a sum, the first for x, x^3, x^5, ..
// that is neither 0 nor 1. There is one below x^m, so the loop does not end without one. Even powers give nothing new and are passed over:
// modulo g an element and its square have the same sum, so the sum for x^2 is that for x, and the sum for x^6 that for x^3. The sum for 1 is
// always 0 or 1.
fn split(part: Part, m: u32) -> u64
    requires { Degree part.value m × (part.degree < m) }
    ensures { (2 ≤ result) × (result < part.value) × Divides result part.value }
{
    let g = part.value;
    for j in 0..m / 2 {
        let t = first_conjugates_sum(g, m, part.degree, power(2 * j as usize + 1));
        let splits = 2 <= t;
        if splits {
            return greatest_common(g, t);
        }
    }
    unreachable!()
}

// An irreducible divisor of a part: it is split until the degree is the one that they all have.
pub fn irreducible_divisor(part: Part) -> u64
    ensures { (2 ≤ result) × Irreducible result × Divides result part.value }
{
    let mut p = part.value;
    while part.degree < degree_of(p) {
        let rest = Part {
            value: p,
            degree: part.degree,
        };
        p = split(rest, degree_of(p));
    }
    p
}
