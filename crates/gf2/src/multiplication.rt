// Multiplication modulo a polynomial: by x, and by any polynomial, whose coefficients are taken from the top down as the multiplier cell
// takes them.
ghost use Rattle.std.specs.Prelude.{◌≡◌};
ghost use Rattle.gf2.specs.Poly.{mul_mod, Element};

use super::division::{element_of, picked, times_x};

// x times a modulo f, of degree n: a is moved up one place, and if that brings up x^n, adding f takes it away. It is one step, and
// `multiply` takes n turns.
pub fn multiply_by_x(f: u64, n: u32, a: u64) -> u64
    requires { Element f n a }
    ensures { result ≡ mul_mod f n a 2 }
{
    let moved = a << 1;
    moved ^ picked(moved >> n, f)
}

// The product of a and b modulo f, of degree n. The first operand and the sum are kept at the top of the word, for `times_x`.
pub fn multiply(f: u64, n: u32, a: u64, b: u64) -> u64
    requires { Element f n a }
    ensures { result ≡ mul_mod f n a b }
{
    // The top term of f leaves the word. For n = 0, where a shift by 64 is not allowed, a is 0 and may stay.
    let k = (64 - n) % 64;
    let low = f << k;
    let high = a << k;
    let element = element_of(f, n, b);
    let mut rest = element << k;
    let mut added = picked(rest >> 63, high);
    let mut sum: u64 = 0;
    // The coefficients of x^(n-1), x^(n-2), .. , x^0, one a turn: the sum is multiplied by x, and a is added if the coefficient is set.
    // After each turn sum >> k is the cell's partial sum. What a turn adds is made one turn ahead, so that the compiler keeps it off the
    // path from sum to sum.
    for _taken in 0..n {
        sum = times_x(low, sum) ^ added;
        rest = rest << 1;
        added = picked(rest >> 63, high);
    }
    sum >> k
}
