// The public call build, and the sheet of a basis, which reading rebuilds with too.
ghost use Rattle.std.specs.Prelude.{◌≡◌, [], ◌∷◌, ◌*◌, ◌^◌, ◌≤◌, ◌<◌, length, take};
ghost use Rattle.refusals.specs.Verdicts.{first_of};
ghost use Rattle.refusals.specs.Answers.{checked_of, left};
ghost use Rattle.field.specs.Judged.{Judged};
ghost use Rattle.field.specs.Refusals.{field_order};
ghost use Rattle.sheet.specs.Record.{record_size, tail_of, records_to, sheet_bytes};
ghost use Rattle.sheet.specs.Orders.{room_rule, room_order, normal_rule};
ghost use Rattle.sheet.specs.Bytes.{pasted};
ghost use Rattle.sheet.specs.Answers.{summary_with, summary_of, issued_of, issued_report, build_answer, build_report, at_front, built_buffer};

use super::answer::Summary;
use super::layout::RECORD;
use super::record::put_sheet;
use field::{Ring, field_verdict, operand_verdict};
use gf2::{LIMIT, Spread};
use normal::{Basis, build_basis, complexity_of, grade_of};
use refusals::{Fault, Refusal, refused};

// "Build and reading answer n, complexity and grade": of f, the element and its table.
pub fn summary_of(ring: Ring, element: u64, table: [u64; LIMIT]) -> Summary
    requires { element < 2 ^ ring.n }
    ensures { result ≡ summary_with ring.f ring.n element (take ring.n table) }
{
    let complexity = complexity_of(table, ring.n as usize);
    Summary {
        degree: ring.n,
        complexity,
        grade: grade_of(ring, element, complexity),
    }
}

// The sheet of a basis, at the buffer's front, and its summary.
pub fn put_basis(buffer: &mut [u8], ring: Ring, element: u64, basis: Basis) -> Summary
    requires { (element < 2 ^ ring.n) × (record_size * ring.n ≤ length buffer.old) }
    ensures summary { result ≡ summary_with ring.f ring.n element (take ring.n basis.table) }
    ensures written { buffer.new ≡ pasted buffer.old 0 (records_to ring.n ring.n (tail_of ring.f ring.n) basis.conjugates basis.inverse basis.table) }
{
    put_sheet(buffer, ring.n as usize, ring.f - (1u64 << ring.n), basis);
    summary_of(ring, element, basis.table)
}

// 6, then 2 and 3.
fn room_verdict(spread: &Spread, ring: Ring, room: usize) -> Result<(), Refusal>
    ensures { result ≡ checked_of (first_of (room_rule ring.n room ∷ field_order ring.f)) }
{
    if room < RECORD * (ring.n as usize) {
        return refused(Fault::NoRoom);
    }
    field_verdict(spread, ring)
}

// 1, 4, 6, 2, 3.
fn build_verdict(spread: &Spread, f: u64, element: u64, room: usize) -> Result<Ring, Refusal>
    ensures { Judged f (room_order f element room) result }
{
    let ring = operand_verdict(f, element)?;
    room_verdict(spread, ring, room)?;
    Ok(ring)
}

// The sheet of f and the element, where the buffer has room for it: 5, or the sheet.
fn build_judged(
    spread: &Spread,
    ring: Ring,
    element: u64,
    buffer: &mut [u8],
) -> Result<Summary, Refusal>
    requires { (element < 2 ^ ring.n) × (record_size * ring.n ≤ length buffer.old) }
    ensures answer { result ≡ issued_of (first_of (normal_rule ring.f ring.n element ∷ [])) (summary_of ring.f ring.n element) }
    ensures written { buffer.new ≡ left (first_of (normal_rule ring.f ring.n element ∷ [])) (at_front (sheet_bytes ring.f ring.n element) buffer.old) buffer.old }
{
    match build_basis(spread, ring.f, ring.n, element) {
        Ok(basis) => Ok(put_basis(buffer, ring, element, basis)),
        Err(_) => Err(Refusal::from(Fault::NotNormal)),
    }
}

// The sheet of f and the element, at the buffer's front.
pub fn build(f: u64, element: u64, buffer: &mut [u8]) -> Result<Summary, Refusal>
    ensures answer { result ≡ build_answer f element (length buffer.old) }
    ensures report { issued_report result ≡ build_report f element (length buffer.old) }
    ensures written { buffer.new ≡ built_buffer f element buffer.old }
{
    let spread = Spread::new();
    let ring = build_verdict(&spread, f, element, buffer.len())?;
    build_judged(&spread, ring, element, buffer)
}
