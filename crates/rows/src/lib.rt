// Matrices of bits, as document 01 has them: "an array of 46 numbers held by value; entries from n upward are zero". Entry i is row i,
// and bit j of a row is its entry in column j.
#![tactic(auto)]

mod bits;
mod by_bytes;
mod inversion;
mod sums;

pub use by_bytes::{BYTE_SUMS, WORD_ROWS, WORD_SUMS, byte_sums, degree_sums, sum_by_bytes};
pub use inversion::invert;
pub use sums::sum;
