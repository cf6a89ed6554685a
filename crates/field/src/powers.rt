// Powers of an element, modulo f.
ghost use Rattle.std.specs.Prelude.{◌≡◌, ◌^◌, ◌<◌};
ghost use Rattle.field.specs.Field.{pow_mod};

use super::ring::Ring;
use gf2::multiply;

// a to the power e, modulo f: c_i is a^(2^i), so the power is the product of the conjugates that the set bits of e pick.
pub fn element_power(ring: Ring, a: u64, e: u32) -> u64
    requires { a < 2 ^ ring.n }
    ensures { result ≡ pow_mod ring.f ring.n a e }
{
    let mut power: u64 = 1;
    let mut conjugate = a;
    let mut rest = e;
    while rest > 0 {
        if rest % 2 == 1 {
            power = multiply(ring.f, ring.n, power, conjugate);
        }
        conjugate = multiply(ring.f, ring.n, conjugate, conjugate);
        rest = rest / 2;
    }
    power
}
