// The part of a polynomial that its divisors of the lowest degree make up.
ghost use Rattle.std.specs.Prelude.{◌≡◌, ◌≤◌};
ghost use Rattle.gf2.specs.Poly.{Degree};
ghost use Rattle.divisors.specs.Smallest.{smallest_divisor};
ghost use Rattle.divisors.specs.Level.{Level};

use gf2::{greatest_common, multiply};

// A polynomial all of whose irreducible divisors have one degree, and that degree.
#[derive(Clone, Copy)]
pub struct Part {
    pub value: u64,
    pub degree: u32,
    ghost level: { Level degree value },
}

// The greatest common divisor of f, of degree n, and x^(2^i) + x, for the first i at which it is not 1. If it is 1 up to n/2, f is
// irreducible, and the part is f. Both have the same smallest divisor, so only the part has to be split. The check of f walks in the same
// way (`squared_half` in `field`), and keeps whether it found something. Here and in `splitting` a square is a product: at these degrees it
// takes no longer than a spread, and needs no table.
pub fn lowest_part(f: u64, n: u32) -> Part
    requires { (1 ≤ n) × Degree f n }
    ensures { smallest_divisor result.value ≡ smallest_divisor f }
{
    let mut y: u64 = 2;
    for i in 1..=n / 2 {
        y = multiply(f, n, y, y);
        let g = greatest_common(f, y ^ 2);
        if g != 1 {
            return Part {
                value: g,
                degree: i,
            };
        }
    }
    Part {
        value: f,
        degree: n,
    }
}
