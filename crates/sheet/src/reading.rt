// The public call read: the shape, then the polynomial and the basis, then every record against the one rebuilt.
ghost use Rattle.std.specs.Prelude.{◌≡◌, ◌∷◌, ◌+◌, ◌*◌, ◌≤◌, ◌<◌, length, MatchOption};
ghost use Rattle.gf2.specs.Limit.{limit};
ghost use Rattle.refusals.specs.Verdicts.{first_of};
ghost use Rattle.normal.specs.Basis.{basis_rows};
ghost use Rattle.sheet.specs.Record.{record_size};
ghost use Rattle.sheet.specs.Orders.{normal_rule, differ_rules, rebuilt_from, rebuild_order};
ghost use Rattle.sheet.specs.Answers.{summary_in, issued_of, issued_report, read_answer, read_report};
ghost use Rattle.sheet.specs.Reading.{Rebuilt, differs, first_differing};

use super::answer::Summary;
use super::building::put_basis;
use super::layout::{CONJUGATE_AT, RECORD, WORD, number_at};
use super::shaped::Sheet;
use field::{Ring, field_verdict};
use gf2::{LIMIT, Spread};
use normal::{Basis, build_basis};
use refusals::{Fault, Refusal};

// Whether record i of two sheets differs.
fn record_differs(sheet: &[u8], rebuilt: &[u8], i: usize) -> bool
    requires { (i < limit) × (record_size * i + record_size ≤ length sheet.now) × (record_size * i + record_size ≤ length rebuilt.now) }
    ensures { result ≡ differs sheet.now rebuilt.now i }
{
    let at = RECORD * i;
    sheet[at..at + RECORD] != rebuilt[at..at + RECORD]
}

// The first of n records that differs, if one does.
fn first_differing(sheet: &[u8], rebuilt: &[u8], n: usize) -> Option<usize>
    requires { (n ≤ limit) × (record_size * n ≤ length sheet.now) × (record_size * n ≤ length rebuilt.now) }
    ensures { MatchOption result (first_differing sheet.now rebuilt.now 0 n ≡ n) (λ i. (i < n) × (first_differing sheet.now rebuilt.now 0 n ≡ i)) }
{
    for i in 0..n {
        if record_differs(sheet, rebuilt, i) {
            return Some(i);
        }
    }
    None
}

// The sheet of a basis, compared record by record: 10, or its summary.
fn compared(sheet: &[u8], ring: Ring, element: u64, basis: Basis) -> Result<Summary, Refusal>
    requires { Rebuilt sheet.now ring.f ring.n element × (basis ≡ basis_rows ring.f ring.n element) }
    ensures { result ≡ issued_of (first_of (differ_rules sheet.now (rebuilt_from sheet.now) 0 ring.n)) (summary_in sheet.now) }
{
    let mut rebuilt = [0u8; RECORD * LIMIT];
    let summary = put_basis(&mut rebuilt, ring, element, basis);
    let count = ring.n as usize;
    match first_differing(sheet, &rebuilt, count) {
        Some(place) => Err(Refusal {
            fault: Fault::Differs,
            place,
        }),
        None => Ok(summary),
    }
}

// The basis of record 0's conjugate, built and compared: 5, then 10.
fn rebuilt_basis(
    spread: &Spread,
    sheet: &[u8],
    ring: Ring,
    element: u64,
) -> Result<Summary, Refusal>
    requires { Rebuilt sheet.now ring.f ring.n element }
    ensures { result ≡ issued_of (first_of (normal_rule ring.f ring.n element ∷ differ_rules sheet.now (rebuilt_from sheet.now) 0 ring.n)) (summary_in sheet.now) }
{
    match build_basis(spread, ring.f, ring.n, element) {
        Ok(basis) => compared(sheet, ring, element, basis),
        Err(_) => Err(Refusal::from(Fault::NotNormal)),
    }
}

impl<'a> Sheet<'a> {
    // The sheet, rebuilt from its polynomial and its record 0 conjugate, and compared: 2, 3, 5, 10.
    fn rebuilt(&self) -> Result<Summary, Refusal>
        ensures { result ≡ issued_of (first_of (rebuild_order self.now.bytes.now)) (summary_in self.now.bytes.now) }
    {
        let ring = self.ring();
        let element = number_at(self.bytes, CONJUGATE_AT, WORD);
        let spread = Spread::new();
        field_verdict(&spread, ring)?;
        rebuilt_basis(&spread, self.bytes, ring, element)
    }
}

// Whether the sheet is one that build writes.
pub fn read(sheet: &[u8]) -> Result<Summary, Refusal>
    ensures answer { result ≡ read_answer sheet.now }
    ensures report { issued_report result ≡ read_report sheet.now }
{
    let judged = Sheet::judged(sheet)?;
    judged.rebuilt()
}
