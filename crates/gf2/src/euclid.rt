// The greatest common divisor of two polynomials.
ghost use Rattle.std.specs.Prelude.{◌<◌};
ghost use Rattle.gf2.specs.Euclid.{GreatestCommon};

use super::degree::degree_of;
use super::division::remainder;

// The greatest common divisor of a, which is not 0, and b: remainders, until one is 0.
pub fn greatest_common(a: u64, b: u64) -> u64
    requires { 0 < a }
    ensures { GreatestCommon a b result }
{
    let mut u = a;
    let mut v = b;
    while v != 0 {
        let r = remainder(v, degree_of(v), degree_of(u) + 1, u);
        u = v;
        v = r;
    }
    u
}
