// Sums of rows by bytes: the 256 sums that a byte can pick are laid down for each eight rows, and a number then picks its sum by one lookup
// for each of its bytes. Where many numbers pick among the same rows this is several times faster than `sum`.
ghost use Rattle.std.specs.Prelude.{◌≡◌, ◌+◌, ◌*◌, ◌/◌, ◌≤◌, length, get_or, set, drop, replicate};
ghost use Rattle.gf2.specs.Limit.{limit};
ghost use Rattle.rows.specs.Rows.{Matrix};
ghost use Rattle.rows.specs.ByteSums.{bytes, byte_sums, picked_bytes};
ghost use Rattle.rows.specs.Doubling.{doubled, tabled, tables};

use gf2::{LIMIT, power};

// The bytes of a number below 2^LIMIT, and so the tables of a matrix. The specs have it as `bytes`.
const BYTES: usize = (LIMIT + 7) / 8;

// The entries of all tables.
pub const BYTE_SUMS: usize = 256 * BYTES;

// The bytes of any word, the rows that its bits pick among, and the entries of their tables. The specs have the first as `word_bytes`.
const WORD_BYTES: usize = 8;

pub const WORD_ROWS: usize = 8 * WORD_BYTES;

pub const WORD_SUMS: usize = 256 * WORD_BYTES;

// Row i, which is 0 past the last.
fn row_at(rows: &[u64], i: usize) -> u64
    ensures { result ≡ get_or rows.now i 0 }
{
    rows.get(i).copied().unwrap_or(0)
}

// The count entries from place at on are copied behind themselves, with the row added.
fn double(sums: &mut [u64], at: usize, count: usize, row: u64)
    requires { at + count + count ≤ length sums.old }
    ensures { sums.new ≡ doubled count at count row sums.old }
{
    for b in 0..count {
        sums[at + count + b] = sums[at + b] ^ row;
    }
}

// Table j: the sums that a byte picks of the eight rows from 8 * j on.
fn byte_table(rows: &[u64], j: usize, sums: &mut [u64])
    requires { 256 * (j + 1) ≤ length sums.old }
    ensures { sums.new ≡ tabled 8 (256 * j) (drop (8 * j) rows.now) (set sums.old (256 * j) 0) }
{
    let at = 256 * j;
    sums[at] = 0;
    for t in 0..8 {
        double(sums, at, power(t) as usize, row_at(rows, 8 * j + t));
    }
}

// The first count tables. Inlined, so that the sizes are known where the tables are filled: that takes a sixth less.
#[inline(always)]
fn first_tables(rows: &[u64], count: usize, sums: &mut [u64])
    requires { 256 * count ≤ length sums.old }
    ensures { sums.new ≡ tables count rows.now sums.old }
{
    for j in 0..count {
        byte_table(rows, j, sums);
    }
}

// All tables of a matrix, or of the rows that any word picks among, one exclusive or for each entry, whatever the array held before. It is
// lent, since returning one costs a copy.
pub fn byte_sums<const ROWS: usize, const SUMS: usize>(rows: [u64; ROWS], sums: &mut [u64; SUMS])
    requires { SUMS ≡ 256 * (SUMS / 256) }
    ensures { sums.new ≡ byte_sums (SUMS / 256) rows.entry }
{
    first_tables(&rows, SUMS / 256, sums);
}

// All tables of a matrix of degree n, in an array of zeros: rows from n on are zero, and so is what they sum to. At low degrees this takes a
// part of the time.
pub fn degree_sums(rows: [u64; LIMIT], n: usize, sums: &mut [u64; BYTE_SUMS])
    requires { Matrix rows n × (n ≤ limit) × (sums.old ≡ replicate (256 * bytes) 0) }
    ensures { sums.new ≡ byte_sums bytes rows }
{
    first_tables(&rows, (n + 7) / 8, sums);
}

// The sum of the entries that v's bytes pick, one of each table. With the tables of a matrix, and v below 2^LIMIT, it is the sum of the rows
// that v's bits pick; with those of 64 rows it is that of any word.
pub fn sum_by_bytes<const SUMS: usize>(sums: &[u64; SUMS], v: u64) -> u64
    ensures { result ≡ picked_bytes (SUMS / 256) sums.now v }
{
    let mut sum: u64 = 0;
    let mut left = v;
    for byte in 0..SUMS / 256 {
        sum = sum ^ sums[256 * byte + (left % 256) as usize];
        left = left / 256;
    }
    sum
}
