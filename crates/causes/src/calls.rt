// The calls: why reading, check and build refuse. Each makes the call it speaks of, and tells what lies behind a refusal. They stay three: they
// differ in the call, in the refusals that say all and in what lies behind the others, so that one function would be no plainer.
ghost use Rattle.std.specs.Prelude.{◌≡◌, ◌&&◌, ◌||◌, leb, eqb};
ghost use Rattle.refusals.specs.Verdicts.{fault_number, refuse, first_of};
ghost use Rattle.sheet.specs.Orders.{Shaped, rebuild_order, read_order};
ghost use Rattle.causes.specs.Causes.{sheet_cause, cause_report, why_answer, why_report, why_check_answer, why_check_report, why_build_answer, why_build_report};

use super::answer::Cause;
use super::behind::{basis_cause, difference_of, polynomial_cause, right_row};
use field::Ring;
use gf2::{LIMIT, degree_of};
use refusals::{Fault, Refusal};
use sheet::{RECORD, polynomial_of, row_at};

// Behind a refusal of a sheet whose shape is right.
fn rebuilt_cause(sheet: &[u8], refusal: Refusal) -> Cause
    requires { Shaped sheet.now × (first_of (rebuild_order sheet.now) ≡ refuse refusal.fault refusal.place) }
    ensures { result ≡ sheet_cause sheet.now refusal.fault refusal.place }
{
    let ring = Ring {
        f: polynomial_of(sheet),
        n: (sheet.len() / RECORD) as u32,
    };
    let first = row_at(sheet, 0);
    match refusal.fault {
        Fault::Differs => {
            let place = refusal.place;
            let right = right_row(ring, first.conjugate, place);
            Cause::Differs(difference_of(place, row_at(sheet, place), right))
        }
        _ => basis_cause(ring, first.conjugate, refusal),
    }
}

// Whether a refusal of reading speaks of the shape. After one that does not, the shape is right. It takes any number, as its promise does.
pub fn is_of_shape(number: u8) -> bool
    ensures { result ≡ (leb 7 number && leb number 9) }
{
    7 <= number && number <= 9
}

// Behind reading's refusal. One of the shape says all.
fn sheet_cause(sheet: &[u8], refusal: Refusal) -> Cause
    requires { first_of (read_order sheet.now) ≡ refuse refusal.fault refusal.place }
    ensures { result ≡ sheet_cause sheet.now refusal.fault refusal.place }
{
    if is_of_shape(refusal.fault.number()) {
        return Cause::Refused(refusal);
    }
    rebuilt_cause(sheet, refusal)
}

// Why reading refuses the sheet.
pub fn why(sheet: &[u8]) -> Cause
    ensures answer { result ≡ why_answer sheet.now }
    ensures report { cause_report result ≡ why_report sheet.now }
{
    match sheet::read(sheet) {
        Err(refusal) => sheet_cause(sheet, refusal),
        Ok(_) => Cause::Accepted,
    }
}

// Why check refuses f. 1 says all.
pub fn why_check(f: u64) -> Cause
    ensures answer { result ≡ why_check_answer f }
    ensures report { cause_report result ≡ why_check_report f }
{
    match field::check(f) {
        Err(refusal) => match refusal.fault {
            Fault::DegreeOutside => Cause::Refused(refusal),
            _ => {
                let ring = Ring { f, n: degree_of(f) };
                polynomial_cause(ring, refusal)
            }
        },
        Ok(()) => Cause::Accepted,
    }
}

// Whether a refusal of build speaks of the degree of f or the size of the element.
fn is_of_operands(fault: Fault) -> bool
    ensures { result ≡ (eqb (fault_number fault) 1 || eqb (fault_number fault) 4) }
{
    matches!(fault, Fault::DegreeOutside | Fault::TooLarge)
}

// Why build refuses f and the element, with room for every sheet. A refusal of the operands says all.
pub fn why_build(f: u64, element: u64) -> Cause
    ensures answer { result ≡ why_build_answer f element }
    ensures report { cause_report result ≡ why_build_report f element }
{
    let mut room = [0u8; RECORD * LIMIT];
    match sheet::build(f, element, &mut room) {
        Err(refusal) => {
            if is_of_operands(refusal.fault) {
                return Cause::Refused(refusal);
            }
            let ring = Ring { f, n: degree_of(f) };
            basis_cause(ring, element, refusal)
        }
        Ok(_) => Cause::Accepted,
    }
}
