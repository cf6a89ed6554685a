// What a line of a matrix is made of. Entry (i,j) of T_k is t((j-i) mod n, (k-i) mod n), so line i takes one bit of each of the n rows of
// the table: from row (n-i) mod n on, and after the last row from row 0 on.
ghost use Rattle.std.specs.Prelude.{◌≡◌, ◌≤◌, ◌<◌};
ghost use Rattle.gf2.specs.Limit.{limit};
ghost use Rattle.rows.specs.Bits.{bit_of};
ghost use Rattle.matrices.specs.Matrices.{digit_byte, matrix_size, text_size};
ghost use Rattle.matrices.specs.Turned.{Twice};

use gf2::LIMIT;

// The byte that ends a line.
pub const LINE_END: u8 = 10;

// The digit 0; the digit 1 is the byte after it.
const ZERO: u8 = 48;

// The bytes of the longest text: room for every sheet's.
pub const TEXT_LIMIT: usize = LIMIT * (LIMIT * (LIMIT + 1) + 1);

// Room for the rows of the longest table, twice over.
const ROWS_TWICE: usize = 2 * LIMIT;

// The digit of one bit of a row.
pub fn digit(row: u64, bit: usize) -> u8
    requires { bit < 64 }
    ensures { result ≡ digit_byte (bit_of row bit) }
{
    ZERO + ((row >> bit) % 2) as u8
}

// The n rows of a table, once more the same, and zeros, so that every line finds its rows one after another.
#[derive(Clone, Copy)]
pub struct RowsTwice {
    pub rows: [u64; ROWS_TWICE],
    pub n: usize,
    ghost in_range: { n ≤ limit },
}

// The rows of a table, twice over.
pub fn rows_twice(table: &[u64; LIMIT], n: usize) -> RowsTwice
    requires { n ≤ limit }
    ensures count { result.n ≡ n }
    ensures rows { Twice n table.now result.rows }
{
    let mut rows: [u64; ROWS_TWICE] = [0; ROWS_TWICE];
    for i in 0..n {
        rows[i] = table[i];
        rows[n + i] = table[i];
    }
    RowsTwice { rows, n }
}

// The bytes of one matrix and its empty line.
pub fn matrix_size(n: usize) -> usize
    requires { n ≤ limit }
    ensures { result ≡ matrix_size n }
{
    n * (n + 1) + 1
}

// The bytes of the whole text.
pub fn text_size(n: usize) -> usize
    requires { n ≤ limit }
    ensures { result ≡ text_size n }
{
    n * matrix_size(n)
}
