// Lists of words that arrive unreduced, turned into normal coordinates where they stand. A short list is reduced word by word, and then
// converted as elements are. A long one is converted at once: the coordinates of x^0 to x^63 are rows that any word picks among, so the tables
// of their byte sums reduce and convert in one step.
ghost use Rattle.std.specs.Prelude.{◌≡◌, map, ◌^◌, ◌≤◌, ◌<◌};
ghost use Rattle.gf2.specs.Poly.{rem, Degree};
ghost use Rattle.gf2.specs.Limit.{limit};
ghost use Rattle.rows.specs.Rows.{comb};
ghost use Rattle.sheet.specs.Unreduced.{word_rows, in_normal};

use super::in_place::convert_each;
use field::Ring;
use gf2::{LIMIT, element_of, multiply_by_x};
use rows::{WORD_ROWS, WORD_SUMS, byte_sums, sum, sum_by_bytes};

// Every word of a list replaced by its remainder modulo f, of degree n.
pub fn reduce_all(f: u64, n: u32, list: &mut [u64])
    requires { Degree f n }
    ensures { list.new ≡ map (rem f n) list.old }
{
    convert_each(list, |word| element_of(f, n, word));
}

// The coordinates of x^i, which is y modulo f: below n it is an element, and its coordinates are row i.
fn word_row(rows: &[u64; LIMIT], n: u32, i: usize, y: u64) -> u64
    requires { (n ≤ limit) × (y < 2 ^ n) × ((i < n) → y ≡ 2 ^ i) }
    ensures { result ≡ comb rows.now y }
{
    if i < n as usize {
        rows[i]
    } else {
        sum(rows, y)
    }
}

// The coordinates of x^0 to x^63, by the coordinates of x^0 to x^(n-1).
fn word_rows(rows: &[u64; LIMIT], ring: Ring) -> [u64; WORD_ROWS]
    ensures { result ≡ word_rows ring.f ring.n rows.now }
{
    let mut words: [u64; WORD_ROWS] = [0; WORD_ROWS];
    let mut y: u64 = 1;
    for i in 0..WORD_ROWS {
        words[i] = word_row(rows, ring.n, i, y);
        y = multiply_by_x(ring.f, ring.n, y);
    }
    words
}

// Every word of a list reduced and converted at once, from the tables of the words' rows.
pub fn convert_words(rows: &[u64; LIMIT], ring: Ring, list: &mut [u64])
    ensures { list.new ≡ map (in_normal ring.f ring.n rows.now) list.old }
{
    let mut sums: [u64; WORD_SUMS] = [0; WORD_SUMS];
    byte_sums(word_rows(rows, ring), &mut sums);
    convert_each(list, |word| sum_by_bytes(&sums, word));
}
