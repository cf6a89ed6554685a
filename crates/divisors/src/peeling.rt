// The smallest divisor: irreducible divisors are taken off one after another, and the smallest is kept.
ghost use Rattle.std.specs.Prelude.{◌≡◌, ◌≤◌};
ghost use Rattle.gf2.specs.Poly.{Degree};
ghost use Rattle.divisors.specs.Smallest.{smallest_divisor};

use super::lowest::{Part, lowest_part};
use super::quotient::quotient;
use super::splitting::irreducible_divisor;

// The smallest divisor of a part. Its irreducible divisors are found in no order of size, so all are taken off.
fn smallest_of_level(part: Part) -> u64
    ensures { result ≡ smallest_divisor part.value }
{
    let mut best = part.value;
    let mut rest = part.value;
    while rest != 1 {
        let p = irreducible_divisor(Part {
            value: rest,
            degree: part.degree,
        });
        best = best.min(p);
        rest = quotient(rest, p);
    }
    best
}

// "the smallest divisor of degree at least 1 as a number" (document 02, §5) of f, of degree n: f itself if f is irreducible.
pub fn smallest_divisor(f: u64, n: u32) -> u64
    requires { (1 ≤ n) × Degree f n }
    ensures { result ≡ smallest_divisor f }
{
    smallest_of_level(lowest_part(f, n))
}
