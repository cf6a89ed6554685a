// What lies behind a refusal: the number or the field that its condition speaks of.
ghost use Rattle.std.specs.Prelude.{◌≡◌, false, ◌^◌, ◌<◌};
ghost use Rattle.refusals.specs.declared.fault.Fault.TheVariants.{NotNormal};
ghost use Rattle.field.specs.Field.{squared};
ghost use Rattle.normal.specs.Normal.{normal, dependency};
ghost use Rattle.sheet.specs.Record.{sheet_bytes};
ghost use Rattle.sheet.specs.Sheets.{Based};
ghost use Rattle.causes.specs.Causes.{row_of, first_field_lem, difference_of, polynomial_cause, basis_cause};

use super::answer::{Cause, Difference, Field};
use divisors::smallest_divisor;
use field::{Ring, squared_times};
use gf2::Spread;
use normal::build_basis;
use refusals::{Fault, Refusal};
use sheet::Row;

// What x becomes after n squarings.
fn x_squared(ring: Ring) -> u64
    ensures { result ≡ squared ring.f ring.n ring.n 2 }
{
    let spread = Spread::new();
    squared_times(&spread, ring, ring.n, 2)
}

// Behind a refusal of f.
pub fn polynomial_cause(ring: Ring, refusal: Refusal) -> Cause
    ensures { result ≡ polynomial_cause ring.f ring.n refusal.fault refusal.place }
{
    match refusal.fault {
        Fault::Divided => Cause::Divisor(smallest_divisor(ring.f, ring.n)),
        Fault::Strays => Cause::Became(x_squared(ring)),
        _ => Cause::Refused(refusal),
    }
}

// The dependency of an element that is not normal.
fn dependency_of(ring: Ring, element: u64) -> u64
    requires { (element < 2 ^ ring.n) × (normal ring.f ring.n element ≡ false) }
    ensures { result ≡ dependency ring.f ring.n element }
{
    let spread = Spread::new();
    match build_basis(&spread, ring.f, ring.n, element) {
        Ok(_) => 0,
        Err(set) => set,
    }
}

// Behind a refusal of f and the element.
pub fn basis_cause(ring: Ring, element: u64, refusal: Refusal) -> Cause
    requires { (element < 2 ^ ring.n) × (refusal.fault ≡ NotNormal → normal ring.f ring.n element ≡ false) }
    ensures { result ≡ basis_cause ring.f ring.n element refusal.fault refusal.place }
{
    match refusal.fault {
        Fault::NotNormal => Cause::Dependency(dependency_of(ring, element)),
        _ => polynomial_cause(ring, refusal),
    }
}

// Row i of each of the three matrices of a normal element.
pub fn right_row(ring: Ring, element: u64, i: usize) -> Row
    requires { Based ring.f ring.n element × (i < ring.n) }
    ensures { result ≡ row_of (sheet_bytes ring.f ring.n element) i }
{
    let spread = Spread::new();
    let basis = build_basis(&spread, ring.f, ring.n, element).unwrap();
    Row {
        conjugate: basis.conjugates[i],
        inverse: basis.inverse[i],
        table: basis.table[i],
    }
}

// The first field in byte order in which two records differ.
#[tactic(auto, unfolding(crate::specs::Causes::first_field_lem))]
fn first_field(stored: Row, right: Row) -> Field
    ensures { result ≡ first_field_lem stored right }
{
    if stored.conjugate != right.conjugate {
        Field::Conjugate
    } else if stored.inverse != right.inverse {
        Field::Inverse
    } else {
        Field::Table
    }
}

// How record i differs: the first field in byte order.
pub fn difference_of(i: usize, stored: Row, right: Row) -> Difference
    ensures { result ≡ difference_of i stored right }
{
    let field = first_field(stored, right);
    Difference {
        place: i,
        field,
        stored: field.number_of(stored),
        right: field.number_of(right),
    }
}
