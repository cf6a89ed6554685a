// A sheet whose shape was judged, and what it holds, as it stands: its degree, its polynomial, one column's rows, and the byte sums of its
// table.
ghost use Rattle.std.specs.Prelude.{◌≡◌, ◌+◌, ◌*◌, ◌≤◌, MatchResult, replicate};
ghost use Rattle.refusals.specs.Verdicts.{refuse, first_of};
ghost use Rattle.rows.specs.ByteSums.{bytes as byte_count, byte_sums};
ghost use Rattle.normal.specs.Normal.{padded};
ghost use Rattle.sheet.specs.Record.{record_size, record_count, word_size, polynomial_in, rows_in, table_rows_in};
ghost use Rattle.sheet.specs.Orders.{Shaped, shape_order};

use super::layout::{RECORD, TABLE_AT, TAIL, TAIL_AT, WORD, number_at};
use super::shape::shape_verdict;
use field::Ring;
use gf2::LIMIT;
use refusals::Refusal;
use rows::{BYTE_SUMS, degree_sums};

// The bytes of a sheet that neither 7 nor 8 nor 9 refuses.
#[derive(Clone, Copy)]
pub struct Sheet<'a> {
    pub bytes: &'a [u8],
    ghost shaped: { Shaped bytes.now },
}

impl<'a> Sheet<'a> {
    // The shape: 7, then 8 before 9 record by record, or the sheet.
    pub fn judged(bytes: &'a [u8]) -> Result<Sheet<'a>, Refusal>
        ensures { MatchResult result (λ sheet. sheet.bytes.now ≡ bytes.now) (λ refusal. first_of (shape_order bytes.now) ≡ refuse refusal.fault refusal.place) }
    {
        shape_verdict(bytes)?;
        Ok(Sheet { bytes })
    }

    // The number of records.
    pub fn degree(&self) -> u32
        ensures { result ≡ record_count self.now.bytes.now }
    {
        (self.bytes.len() / RECORD) as u32
    }

    // The polynomial that record 0 names.
    pub fn polynomial(&self) -> u64
        ensures { result ≡ polynomial_in self.now.bytes.now }
    {
        (1u64 << self.degree()) + number_at(self.bytes, TAIL_AT, TAIL)
    }

    // The polynomial with the degree, which the shape has in range.
    pub fn ring(&self) -> Ring
        ensures { (result.f ≡ polynomial_in self.now.bytes.now) × (result.n ≡ record_count self.now.bytes.now) }
    {
        Ring {
            f: self.polynomial(),
            n: self.degree(),
        }
    }

    // The rows of the column at a place.
    pub fn rows(&self, at: usize) -> [u64; LIMIT]
        requires { at + word_size ≤ record_size }
        ensures { result ≡ padded (rows_in self.now.bytes.now at) }
    {
        let mut rows: [u64; LIMIT] = [0; LIMIT];
        let n = self.degree() as usize;
        for i in 0..n {
            rows[i] = number_at(self.bytes, RECORD * i + at, WORD);
        }
        rows
    }

    // The byte sums of the table's rows, in an array of zeros.
    pub fn load_sums(&self, sums: &mut [u64; BYTE_SUMS])
        requires { sums.old ≡ replicate (256 * byte_count) 0 }
        ensures { sums.new ≡ byte_sums byte_count (padded (table_rows_in self.now.bytes.now)) }
    {
        degree_sums(self.rows(TABLE_AT), self.degree() as usize, sums);
    }
}
