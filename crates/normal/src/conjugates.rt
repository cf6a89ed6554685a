// The conjugates of an element.
ghost use Rattle.std.specs.Prelude.{◌≡◌, ◌≤◌};
ghost use Rattle.gf2.specs.Poly.{Element};
ghost use Rattle.gf2.specs.Limit.{limit};
ghost use Rattle.normal.specs.Normal.{conjugates, padded};

use gf2::{LIMIT, Spread, square};

// The n conjugates of a, in order of squaring.
pub fn conjugates_of(spread: &Spread, f: u64, n: u32, a: u64) -> [u64; LIMIT]
    requires { (n ≤ limit) × Element f n a }
    ensures { result ≡ padded (conjugates f n a) }
{
    let mut rows: [u64; LIMIT] = [0; LIMIT];
    let mut y = a;
    for i in 0..n as usize {
        rows[i] = y;
        y = square(spread, f, n, y);
    }
    rows
}
