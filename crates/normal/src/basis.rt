// A basis: the three matrices of a normal element, held by value (document 01, "What a sheet holds").
ghost use Rattle.std.specs.Prelude.{◌≡◌, ◌≤◌, get_or};
ghost use Rattle.gf2.specs.Poly.{mul_mod, Degree, Element};
ghost use Rattle.gf2.specs.Limit.{limit};
ghost use Rattle.rows.specs.Rows.{comb, Matrix};
ghost use Rattle.normal.specs.Normal.{listed, padded};
ghost use Rattle.normal.specs.Basis.{built_of};

use super::conjugates::conjugates_of;
use gf2::{LIMIT, Spread, multiply};
use rows::{invert, sum};

#[derive(Clone, Copy)]
pub struct Basis {
    pub conjugates: [u64; LIMIT],
    pub inverse: [u64; LIMIT],
    pub table: [u64; LIMIT],
}

// Row i: the coordinates, through the inverse rows, of c_0 times c_i.
fn table_of(f: u64, n: u32, conjugates: [u64; LIMIT], inverse: [u64; LIMIT]) -> [u64; LIMIT]
    requires { (n ≤ limit) × Degree f n × Matrix conjugates n }
    ensures { result ≡ padded (listed n (λ i. comb inverse (mul_mod f n (get_or conjugates 0 0) (get_or conjugates i 0)))) }
{
    let mut rows: [u64; LIMIT] = [0; LIMIT];
    let first = conjugates[0];
    for i in 0..n as usize {
        rows[i] = sum(&inverse, multiply(f, n, first, conjugates[i]));
    }
    rows
}

// The basis of a. Where a is not normal, its dependency: the smallest number other than 0 whose set bits select conjugates that sum to zero.
pub fn build_basis(spread: &Spread, f: u64, n: u32, a: u64) -> Result<Basis, u64>
    requires { (n ≤ limit) × Element f n a }
    ensures { result ≡ built_of f n a }
{
    let conjugates = conjugates_of(spread, f, n, a);
    let inverse = invert(conjugates, n as usize)?;
    let table = table_of(f, n, conjugates, inverse);
    Ok(Basis {
        conjugates,
        inverse,
        table,
    })
}
