// The public calls that convert lists. A destination is written only if nothing is refused.
ghost use Rattle.std.specs.Prelude.{◌≡◌, [], ◌∷◌, map, ◌<◌, length, position};
ghost use Rattle.gf2.specs.Limit.{limit};
ghost use Rattle.refusals.specs.Verdicts.{first_of};
ghost use Rattle.refusals.specs.Answers.{checked_of, checked_report};
ghost use Rattle.rows.specs.Rows.{comb};
ghost use Rattle.field.specs.Refusals.{too_large_lem};
ghost use Rattle.sheet.specs.Record.{record_count};
ghost use Rattle.sheet.specs.Orders.{Small, list_rule, value_rules, list_order, polynomial_list_order};
ghost use Rattle.sheet.specs.Answers.{to_polynomial, to_normal, polynomial_list_answer, polynomial_list_report, polynomial_list, normal_list_answer, normal_list_report, normal_list};
ghost use Rattle.sheet.specs.Unreduced.{in_normal};

use super::in_place::convert_each;
use super::layout::{CONJUGATE_AT, INVERSE_AT};
use super::shaped::Sheet;
use super::unreduced::{convert_words, reduce_all};
use field::{Ring, too_large};
use gf2::LIMIT;
use refusals::{Fault, Refusal, refused, refused_at};
use rows::{BYTE_SUMS, byte_sums, sum, sum_by_bytes};

// The most values that a list may have.
pub const LIST_LIMIT: usize = 4096;

// A list of so many values or more takes its sums from tables. Making the tables takes as long as summing bit by bit takes for a dozen
// coordinate numbers at degree 46, for 48 at degree 10, and for more at smaller degrees; for words see docs/SPEED.md, "Lists".
const TABLES_PAY: usize = 48;

// The index of the first value that is 2^n or more, if there is one.
fn first_too_large(n: u32, values: &[u64]) -> Option<usize>
    requires { n < 64 }
    ensures { result ≡ position (too_large_lem n) values.now }
{
    values.iter().position(|value| too_large(n, *value))
}

// The list `from`, copied into the list `into`, where it is then converted. A `for` becomes the C library's memcpy; the slices' own method
// would have the archive ask its callers for memmove too.
fn copy(from: &[u64], into: &mut [u64])
    requires { length from.now ≡ length into.old }
    ensures { into.new ≡ from.now }
{
    for i in 0..from.len() {
        into[i] = from[i];
    }
}

// Every value converted by the rows, where it stands.
fn convert_all(rows: &[u64; LIMIT], list: &mut [u64])
    requires { Small limit list.old }
    ensures { list.new ≡ map (comb rows.now) list.old }
{
    convert_each(list, |value| sum(rows, value));
}

// The same from the tables of the rows, made once for the whole list.
fn convert_by_bytes(rows: [u64; LIMIT], list: &mut [u64])
    requires { Small limit list.old }
    ensures { list.new ≡ map (comb rows) list.old }
{
    let mut sums: [u64; BYTE_SUMS] = [0; BYTE_SUMS];
    byte_sums(rows, &mut sums);
    convert_each(list, |value| sum_by_bytes(&sums, value));
}

// Every value converted by the rows, in the way that is faster for a list of its length.
fn convert_values(rows: [u64; LIMIT], list: &mut [u64])
    requires { Small limit list.old }
    ensures { list.new ≡ map (comb rows) list.old }
{
    if list.len() < TABLES_PAY {
        convert_all(&rows, list);
    } else {
        convert_by_bytes(rows, list);
    }
}

// Every word reduced and converted by the inverse rows, in the way that is faster for a list of its length.
fn convert_unreduced(rows: [u64; LIMIT], ring: Ring, list: &mut [u64])
    ensures { list.new ≡ map (in_normal ring.f ring.n rows) list.old }
{
    if list.len() < TABLES_PAY {
        reduce_all(ring.f, ring.n, list);
        convert_all(&rows, list);
    } else {
        convert_words(&rows, ring, list);
    }
}

// 11.
fn lengths_verdict(values: usize, room: usize) -> Result<(), Refusal>
    ensures { result ≡ checked_of (first_of (list_rule values room ∷ [])) }
{
    if values != room {
        return refused(Fault::BadList);
    }
    if LIST_LIMIT < values {
        return refused(Fault::BadList);
    }
    Ok(())
}

// 4 with the index of the first value that is too large.
fn coordinates_verdict(n: u32, values: &[u64]) -> Result<(), Refusal>
    requires { n < 64 }
    ensures { result ≡ checked_of (first_of (value_rules n 0 values.now)) }
{
    match first_too_large(n, values) {
        Some(place) => refused_at(Fault::TooLarge, place),
        None => Ok(()),
    }
}

impl<'a> Sheet<'a> {
    // The list `from` of normal coordinates, converted into the list `into`.
    fn fill_polynomials(&self, from: &[u64], into: &mut [u64])
        requires { (length from.now ≡ length into.old) × Small (record_count self.now.bytes.now) from.now }
        ensures { into.new ≡ map (to_polynomial self.now.bytes.now) from.now }
    {
        let rows = self.rows(CONJUGATE_AT);
        copy(from, into);
        convert_values(rows, into);
    }

    // The list `from` of words, converted into the list `into`. One function for both directions would be no plainer: a word asks nothing of
    // the list, and takes the polynomial and the degree.
    fn fill_coordinates(&self, from: &[u64], into: &mut [u64])
        requires { length from.now ≡ length into.old }
        ensures { into.new ≡ map (to_normal self.now.bytes.now) from.now }
    {
        let rows = self.rows(INVERSE_AT);
        copy(from, into);
        convert_unreduced(rows, self.ring(), into);
    }

    // The shape, which is good, then 11.
    fn list_verdict(&self, values: usize, room: usize) -> Result<(), Refusal>
        ensures { result ≡ checked_of (first_of (list_order self.now.bytes.now values room)) }
    {
        lengths_verdict(values, room)
    }

    // The shape, which is good, then 11 and 4.
    fn polynomial_list_verdict(&self, from: &[u64], room: usize) -> Result<(), Refusal>
        ensures { result ≡ checked_of (first_of (polynomial_list_order self.now.bytes.now from.now room)) }
    {
        self.list_verdict(from.len(), room)?;
        coordinates_verdict(self.degree(), from)
    }

    // The elements that a list of normal coordinates stands for.
    fn list_to_polynomial(&self, from: &[u64], into: &mut [u64]) -> Result<(), Refusal>
        ensures answer { result ≡ polynomial_list_answer self.now.bytes.now from.now (length into.old) }
        ensures written { into.new ≡ polynomial_list self.now.bytes.now from.now into.old }
    {
        self.polynomial_list_verdict(from, into.len())?;
        self.fill_polynomials(from, into);
        Ok(())
    }

    // The normal coordinates of a list of elements, which may arrive unreduced.
    fn list_to_normal(&self, from: &[u64], into: &mut [u64]) -> Result<(), Refusal>
        ensures answer { result ≡ normal_list_answer self.now.bytes.now from.now (length into.old) }
        ensures written { into.new ≡ normal_list self.now.bytes.now from.now into.old }
    {
        self.list_verdict(from.len(), into.len())?;
        self.fill_coordinates(from, into);
        Ok(())
    }
}

// The elements that a list of normal coordinates stands for.
pub fn list_to_polynomial(sheet: &[u8], from: &[u64], into: &mut [u64]) -> Result<(), Refusal>
    ensures answer { result ≡ polynomial_list_answer sheet.now from.now (length into.old) }
    ensures report { checked_report result ≡ polynomial_list_report sheet.now from.now (length into.old) }
    ensures written { into.new ≡ polynomial_list sheet.now from.now into.old }
{
    let judged = Sheet::judged(sheet)?;
    judged.list_to_polynomial(from, into)
}

// The normal coordinates of a list of elements, which may arrive unreduced.
pub fn list_to_normal(sheet: &[u8], from: &[u64], into: &mut [u64]) -> Result<(), Refusal>
    ensures answer { result ≡ normal_list_answer sheet.now from.now (length into.old) }
    ensures report { checked_report result ≡ normal_list_report sheet.now from.now (length into.old) }
    ensures written { into.new ≡ normal_list sheet.now from.now into.old }
{
    let judged = Sheet::judged(sheet)?;
    judged.list_to_normal(from, into)
}
