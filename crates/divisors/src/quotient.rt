// Division without remainder.
ghost use Rattle.std.specs.Prelude.{◌≡◌, ◌<◌};
ghost use Rattle.gf2.specs.Poly.{product, Divides};

use gf2::{degree_of, power};

// The quotient of a, which is not 0, by d, which divides a. Each turn moves d up to the highest coefficient that is left, and takes it
// away.
pub fn quotient(a: u64, d: u64) -> u64
    requires { (0 < a) × Divides d a }
    ensures { product result d ≡ a }
{
    let m = degree_of(d);
    let mut q: u64 = 0;
    let mut left = a;
    while left != 0 {
        let k = degree_of(left) - m;
        q = q ^ power(k as usize);
        left = left ^ (d << k);
    }
    q
}
