// Why a polynomial, an element or a sheet is refused (document 02, §5): the smallest divisor, the smallest set of conjugates that sum to
// zero, and the first field that differs.
ghost use Rattle.std.specs.Prelude.{◌<◌};

use super::built::{Built, THREE};
use super::sheets::print_listing;
use causes::{Cause, why_build, why_check};
use listing::{CAUSE_ROOM, put_cause};
use sheet::RECORD;
use std::io;

// The line of a cause, as the lister prints it.
fn print_cause(rt: &impl Print, cause: Cause) -> io::Result<()> {
    let mut line = [0u8; CAUSE_ROOM];
    let size = put_cause(&mut line, 0, cause);
    rt.write_all(&line[..size])
}

// The cause of refusal 2.
fn print_divisor(rt: &impl Print, f: u64) -> io::Result<()> {
    print!(rt; "f = {f}, cause: ")?;
    print_cause(rt, why_check(f))
}

// As products of polynomials 5 = 3 * 3, 261 = 19 * 19 and 1395 = 37 * 47. Of the last the code finds 47 first.
const SMALL: [u64; 3] = [5, 261, 1395];

// At degrees 46 and 45, each factor irreducible:
//   71469603571027 = 10489921 * 11014547, two of degree 23:
//                    x^23 + x^21 + x^12 + x^6 + 1 and x^23 + x^21 + x^19 + x^12 + x^8 + x^7 + x^4 + x + 1
//   36637906278055 = 34285 * 42543 * 44101, three of degree 15: x^15 + x^10 + x^8 + x^7 + x^6 + x^5 + x^3 + x^2 + 1,
//                    x^15 + x^13 + x^10 + x^9 + x^5 + x^3 + x^2 + x + 1 and x^15 + x^13 + x^11 + x^10 + x^6 + x^2 + 1
//   70368744178689 = 8388641 * 8388641: x^46 + x^10 + 1 is the square of x^23 + x^5 + 1
//   70368744177664 = x^46
//   70368744177665 = x^46 + 1, the square of x^23 + 1, which x + 1 divides
// Of the first two the code finds the smallest factor last. To split the first it needs every odd power of x up to x^45, the most there
// can be at this degree.
const LARGE: [u64; 5] = [
    71469603571027,
    36637906278055,
    70368744178689,
    1 << 46,
    (1 << 46) + 1,
];

fn print_divisors(rt: &impl Print, polynomials: &[u64]) -> io::Result<()> {
    for f in polynomials {
        print_divisor(rt, *f)?;
    }
    Ok(())
}

// The cause of refusal 5.
fn print_dependency(rt: &impl Print, f: u64, element: u64) -> io::Result<()> {
    print!(rt; "f = {f}, element {element}, cause: ")?;
    print_cause(rt, why_build(f, element))
}

// The conjugates of 2 are 2, 4 and 6 at f = 11, and 2, 4, 3 and 5 at f = 19, where those of 6 are 6, 7, 6 and 7. At degree 46 every second
// conjugate of x is enough: bits 0, 2, .. 44. Of x + 1 all are needed: 2^46 - 1.
const DEPENDENT: [(u64, u64); 7] = [
    (11, 0),
    (11, 1),
    (11, 2),
    (19, 2),
    (19, 6),
    ((1 << 46) + 3, 2),
    ((1 << 46) + 3, 3),
];

fn print_dependencies(rt: &impl Print) -> io::Result<()> {
    for (f, element) in &DEPENDENT {
        print_dependency(rt, *f, *element)?;
    }
    Ok(())
}

// What the lister prints of the sheet of 11 and 3 with one bit wrong.
fn print_damaged(rt: &impl Print, at: usize) -> io::Result<()>
    requires { at < 96 }
{
    let mut sheet = Built::<THREE>::new(11, 3);
    sheet.bytes[at] ^= 1;
    println!(rt; "{sheet} with bit 0 of byte {at} turned:")?;
    print_listing(rt, &sheet.bytes)
}

// Every row of every record: the rows of a record begin at its bytes 8, 16 and 24. The conjugate of record 0 is the element: with its bit
// turned it is 2, which is refused before any record is compared.
fn print_rows(rt: &impl Print) -> io::Result<()> {
    for word in 0..THREE / 8 {
        let at = 8 * word;
        if at % RECORD != 0 {
            print_damaged(rt, at)?;
        }
    }
    Ok(())
}

pub(crate) fn run(rt: &impl Print) -> io::Result<()> {
    print_divisors(rt, &SMALL)?;
    print_divisors(rt, &LARGE)?;
    print_dependencies(rt)?;
    print_rows(rt)
}
