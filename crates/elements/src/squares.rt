// Squares modulo one f by bytes: the tables are made once, and each square is then one lookup for each byte, with no reduction.
ghost use Rattle.std.specs.Prelude.{◌≡◌, ◌^◌, ◌<◌};
ghost use Rattle.gf2.specs.Poly.{mul_mod};
ghost use Rattle.rows.specs.ByteSums.{bytes, byte_sums};
ghost use Rattle.elements.specs.Fields.{FieldOf, FieldOf-prop};
ghost use Rattle.elements.specs.Squares.{square_rows};

use gf2::{LIMIT, Spread, power, square};
use rows::{BYTE_SUMS, byte_sums, sum_by_bytes};

// An accepted f, its degree n, and the tables that square modulo f.
#[derive(Drop)]
pub struct Squares {
    pub f: u64,
    pub n: u32,
    pub sums: [u64; BYTE_SUMS],
    pub ghost of_field: { FieldOf f n } by { FieldOf-prop f n },
    pub ghost held: { sums ≡ byte_sums bytes (square_rows f n) },
}

// The squares of x^0 to x^(n-1).
fn square_rows(spread: &Spread, f: u64, n: u32) -> [u64; LIMIT]
    requires { FieldOf f n }
    ensures { result ≡ square_rows f n }
{
    let mut rows: [u64; LIMIT] = [0; LIMIT];
    for i in 0..n as usize {
        rows[i] = square(spread, f, n, power(i));
    }
    rows
}

impl Squares {
    // The tables of f.
    pub fn new(spread: &Spread, f: u64, n: u32) -> Self
        requires { FieldOf f n }
        ensures { (result.f ≡ f) × (result.n ≡ n) }
    {
        let mut sums: [u64; BYTE_SUMS] = [0; BYTE_SUMS];
        byte_sums(square_rows(spread, f, n), &mut sums);
        Squares { f, n, sums }
    }

    // The square of y modulo f.
    pub fn square(&self, y: u64) -> u64
        requires { y < 2 ^ self.now.n }
        ensures { result ≡ mul_mod self.now.f self.now.n y y }
    {
        sum_by_bytes(&self.sums, y)
    }
}
