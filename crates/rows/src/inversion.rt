// Inversion by insertion. The rows are taken in order from 0, so that a dependency is found as soon as there is one, and is the
// smallest. A row is reduced by those taken before; what is left of it goes in at the place of its lowest set bit, its pivot.
ghost use Rattle.std.specs.Prelude.{◌≡◌, ◌≤◌, ◌<◌, set};
ghost use Rattle.gf2.specs.Limit.{limit};
ghost use Rattle.rows.specs.Rows.{Matrix, Inverts};
ghost use Rattle.rows.specs.Added.{added};

use super::bits::width;
use super::sums::sum;
use gf2::{LIMIT, picked, power};

// Row is added to each of the first count reduced rows that has the column's bit, so that none of them has it, and is put at the
// column's place; the names follow. Rows and names are two arrays, and not one of pairs, since `sum` adds entries of either, and the names
// alone are the inverse.
fn place(
    reduced: &mut [u64; LIMIT],
    names: &mut [u64; LIMIT],
    count: usize,
    column: usize,
    row: u64,
    name: u64,
)
    requires { (count ≤ limit) × (column < limit) }
    ensures rows { reduced.new ≡ set (added count column row reduced.old reduced.old) column row }
    ensures follow { names.new ≡ set (added count column name reduced.old names.old) column name }
{
    for i in 0..count {
        let head = reduced[i];
        let bit = (head >> column) % 2;
        reduced[i] = head ^ picked(bit, row);
        names[i] = names[i] ^ picked(bit, name);
    }
    reduced[column] = row;
    names[column] = name;
}

// The inverse rows of a matrix of degree n, or, where its rows are dependent, the smallest number other than 0 whose bits pick rows that
// sum to zero. A name says of which of the given rows a reduced row is the sum; at the end each reduced row is a single bit, and the names
// are the inverse.
pub fn invert(rows: [u64; LIMIT], n: usize) -> Result<[u64; LIMIT], u64>
    requires { (n ≤ limit) × Matrix rows n }
    ensures { Inverts rows n result }
{
    let mut reduced: [u64; LIMIT] = [0; LIMIT];
    let mut names: [u64; LIMIT] = [0; LIMIT];
    let mut pivots: u64 = 0;
    for k in 0..n {
        let row = rows[k];
        let met = row & pivots;
        let rest = row ^ sum(&reduced, met);
        let name = power(k) ^ sum(&names, met);
        if rest == 0 {
            return Err(name);
        }
        let column = u64::trailing_zeros(rest) as usize;
        place(&mut reduced, &mut names, width(pivots), column, rest, name);
        pivots = pivots ^ power(column);
    }
    Ok(names)
}
