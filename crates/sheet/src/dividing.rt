// The public calls that divide normal coordinates (document 02, §1), by the table's rows as they stand.
ghost use Rattle.std.specs.Prelude.{◌≡◌, [], ◌∷◌, ◌^◌, ◌<◌};
ghost use Rattle.refusals.specs.Verdicts.{first_of};
ghost use Rattle.refusals.specs.Answers.{checked_of, value_report};
ghost use Rattle.sheet.specs.Record.{record_count};
ghost use Rattle.sheet.specs.Orders.{zero_rule, quotient_order};
ghost use Rattle.sheet.specs.Answers.{inverse_through, inverse_answer, inverse_report, quotient_through, quotient_answer, quotient_report};

use super::shaped::Sheet;
use normal::{inverse_of, product_by_bytes};
use refusals::{Fault, Refusal, refused};
use rows::BYTE_SUMS;

// 13 for a divisor or a number to invert that is zero.
fn zero_verdict(value: u64) -> Result<(), Refusal>
    ensures { result ≡ checked_of (first_of (zero_rule value ∷ [])) }
{
    if value == 0 {
        return refused(Fault::ZeroDivisor);
    }
    Ok(())
}

impl<'a> Sheet<'a> {
    // The shape, which is good, then 4 for either number, then 13 for the divisor.
    fn division_verdict(&self, dividend: u64, divisor: u64) -> Result<(), Refusal>
        ensures { result ≡ checked_of (first_of (quotient_order self.now.bytes.now dividend divisor)) }
    {
        self.values_verdict(dividend, divisor)?;
        zero_verdict(divisor)
    }

    // The inverse through the table.
    fn inverted(&self, a: u64) -> u64
        requires { a < 2 ^ record_count self.now.bytes.now }
        ensures { result ≡ inverse_through self.now.bytes.now a }
    {
        let mut sums: [u64; BYTE_SUMS] = [0; BYTE_SUMS];
        self.load_sums(&mut sums);
        inverse_of(&sums, self.degree(), a)
    }

    // The inverse of normal coordinates a. It is judged as a divided by itself.
    fn inverse(&self, a: u64) -> Result<u64, Refusal>
        ensures { result ≡ inverse_answer self.now.bytes.now a }
    {
        self.division_verdict(a, a)?;
        Ok(self.inverted(a))
    }

    // The quotient through the table: the dividend stands before the inverse.
    fn divided(&self, dividend: u64, divisor: u64) -> u64
        requires { (dividend < 2 ^ record_count self.now.bytes.now) × (divisor < 2 ^ record_count self.now.bytes.now) }
        ensures { result ≡ quotient_through self.now.bytes.now dividend divisor }
    {
        let mut sums: [u64; BYTE_SUMS] = [0; BYTE_SUMS];
        self.load_sums(&mut sums);
        let n = self.degree();
        let inverse = inverse_of(&sums, n, divisor);
        product_by_bytes(&sums, n, dividend, inverse)
    }

    // The quotient of normal coordinates.
    fn quotient(&self, dividend: u64, divisor: u64) -> Result<u64, Refusal>
        ensures { result ≡ quotient_answer self.now.bytes.now dividend divisor }
    {
        self.division_verdict(dividend, divisor)?;
        Ok(self.divided(dividend, divisor))
    }
}

// The inverse of normal coordinates a.
pub fn inverse(sheet: &[u8], a: u64) -> Result<u64, Refusal>
    ensures answer { result ≡ inverse_answer sheet.now a }
    ensures report { value_report result ≡ inverse_report sheet.now a }
{
    let judged = Sheet::judged(sheet)?;
    judged.inverse(a)
}

// The quotient of normal coordinates.
pub fn quotient(sheet: &[u8], dividend: u64, divisor: u64) -> Result<u64, Refusal>
    ensures answer { result ≡ quotient_answer sheet.now dividend divisor }
    ensures report { value_report result ≡ quotient_report sheet.now dividend divisor }
{
    let judged = Sheet::judged(sheet)?;
    judged.quotient(dividend, divisor)
}
