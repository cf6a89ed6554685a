// The public calls that convert single values and multiply through a sheet, by its rows as they stand.
ghost use Rattle.std.specs.Prelude.{◌≡◌, [], ◌∷◌, ◌+◌, ◌^◌, ◌≤◌, ◌<◌};
ghost use Rattle.refusals.specs.Verdicts.{first_of};
ghost use Rattle.refusals.specs.Answers.{checked_of, value_report};
ghost use Rattle.rows.specs.Rows.{comb};
ghost use Rattle.sheet.specs.Record.{record_size, record_count, word_size, rows_in};
ghost use Rattle.sheet.specs.Orders.{value_order};
ghost use Rattle.sheet.specs.Answers.{polynomial_answer, polynomial_report, element_in, to_normal, normal_answer, normal_report, through_table, times_answer, times_report};

use super::layout::{CONJUGATE_AT, INVERSE_AT, TABLE_AT};
use super::shaped::Sheet;
use field::elements_verdict;
use gf2::element_of;
use normal::{product_by_bytes, product_of};
use refusals::Refusal;
use rows::{BYTE_SUMS, sum};

// From this degree on a product takes the rows' sums from byte sums, though it makes these for itself alone. At degree 16 to 18 both ways
// take the same time.
const BYTES_PAY: u32 = 20;

impl<'a> Sheet<'a> {
    // The shape, which is good, then 4 for two numbers.
    pub fn values_verdict(&self, a: u64, b: u64) -> Result<(), Refusal>
        ensures { result ≡ checked_of (first_of (value_order self.now.bytes.now (a ∷ b ∷ []))) }
    {
        elements_verdict(self.degree(), a, b)
    }

    // The same for one number: it is judged as the same number given twice.
    fn value_verdict(&self, value: u64) -> Result<(), Refusal>
        ensures { result ≡ checked_of (first_of (value_order self.now.bytes.now (value ∷ []))) }
    {
        self.values_verdict(value, value)
    }

    // The sum of the rows of one column that the bits of value pick.
    fn converted(&self, at: usize, value: u64) -> u64
        requires { (at + word_size ≤ record_size) × (value < 2 ^ record_count self.now.bytes.now) }
        ensures { result ≡ comb (rows_in self.now.bytes.now at) value }
    {
        let rows = self.rows(at);
        sum(&rows, value)
    }

    // The element that normal coordinates stand for.
    fn to_polynomial(&self, coordinates: u64) -> Result<u64, Refusal>
        ensures { result ≡ polynomial_answer self.now.bytes.now coordinates }
    {
        self.value_verdict(coordinates)?;
        Ok(self.converted(CONJUGATE_AT, coordinates))
    }

    // The element that a word stands for on a sheet: its remainder modulo the sheet's polynomial.
    fn element_in(&self, word: u64) -> u64
        ensures { result ≡ element_in self.now.bytes.now word }
    {
        element_of(self.polynomial(), self.degree(), word)
    }

    // The coordinates of the element that a word stands for: the sum of the inverse rows that its bits pick.
    fn to_normal(&self, word: u64) -> u64
        ensures { result ≡ to_normal self.now.bytes.now word }
    {
        let element = self.element_in(word);
        self.converted(INVERSE_AT, element)
    }

    // The product of normal coordinates through the table's rows.
    fn multiplied_by_bits(&self, a: u64, b: u64) -> u64
        requires { (a < 2 ^ record_count self.now.bytes.now) × (b < 2 ^ record_count self.now.bytes.now) }
        ensures { result ≡ through_table self.now.bytes.now a b }
    {
        let table = self.rows(TABLE_AT);
        product_of(table, self.degree(), a, b)
    }

    // The same through their byte sums: another way to the product, and not the same code at another type, so that the two stay apart.
    fn multiplied_by_bytes(&self, a: u64, b: u64) -> u64
        requires { (a < 2 ^ record_count self.now.bytes.now) × (b < 2 ^ record_count self.now.bytes.now) }
        ensures { result ≡ through_table self.now.bytes.now a b }
    {
        let mut sums: [u64; BYTE_SUMS] = [0; BYTE_SUMS];
        self.load_sums(&mut sums);
        product_by_bytes(&sums, self.degree(), a, b)
    }

    // The product of normal coordinates through the table, in the way that is faster at its degree.
    fn multiplied(&self, a: u64, b: u64) -> u64
        requires { (a < 2 ^ record_count self.now.bytes.now) × (b < 2 ^ record_count self.now.bytes.now) }
        ensures { result ≡ through_table self.now.bytes.now a b }
    {
        if self.degree() < BYTES_PAY {
            self.multiplied_by_bits(a, b)
        } else {
            self.multiplied_by_bytes(a, b)
        }
    }

    // The product of normal coordinates a and b.
    fn times(&self, a: u64, b: u64) -> Result<u64, Refusal>
        ensures { result ≡ times_answer self.now.bytes.now a b }
    {
        self.values_verdict(a, b)?;
        Ok(self.multiplied(a, b))
    }
}

// The element that normal coordinates stand for.
pub fn to_polynomial(sheet: &[u8], coordinates: u64) -> Result<u64, Refusal>
    ensures answer { result ≡ polynomial_answer sheet.now coordinates }
    ensures report { value_report result ≡ polynomial_report sheet.now coordinates }
{
    let judged = Sheet::judged(sheet)?;
    judged.to_polynomial(coordinates)
}

// The normal coordinates of an element, which may arrive unreduced.
pub fn to_normal(sheet: &[u8], word: u64) -> Result<u64, Refusal>
    ensures answer { result ≡ normal_answer sheet.now word }
    ensures report { value_report result ≡ normal_report sheet.now word }
{
    let judged = Sheet::judged(sheet)?;
    Ok(judged.to_normal(word))
}

// The product of normal coordinates a and b.
pub fn times(sheet: &[u8], a: u64, b: u64) -> Result<u64, Refusal>
    ensures answer { result ≡ times_answer sheet.now a b }
    ensures report { value_report result ≡ times_report sheet.now a b }
{
    let judged = Sheet::judged(sheet)?;
    judged.times(a, b)
}
