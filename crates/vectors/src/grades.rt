// The grade follows the element (document 02, §3): the best basis of a field for each degree 2 to 20 where it is optimal, and both kinds at
// degree 18. The least complexities above are not 2n-1 at any other of these degrees.
//
// Source document 001: optimal bases "exist only when n+1 or 2n+1 are prime", and degree 18 "satisfies the conditions for both types". Here grade 1
// stands at degrees 4, 10, 12 and 18, where n+1 is prime; grade 2 at 3, 5, 6, 9, 11, 14 and 18, where 2n+1 is; and grade 3 at 2.
use super::answers::{Graded, Shown};
use super::built::{Built, LARGEST};
use super::searches::print_search;
use std::io;

// The polynomials of the fields whose best basis is optimal, and the last element of each field.
const FIELDS: [(u64, u64); 11] = [
    (7, 3),
    (11, 7),
    (19, 15),
    (37, 31),
    (67, 63),
    (515, 511),
    (1033, 1023),
    (2053, 2047),
    (4105, 4095),
    (16417, 16383),
    (262153, 262143),
];

fn print_whole_fields(rt: &impl Print) -> io::Result<()> {
    for (f, last) in &FIELDS {
        print_search(rt, *f, 0, *last)?;
    }
    Ok(())
}

// At degree 18 the whole field's best is the smaller of two leaders of complexity 35. Past it the other is found, and past both none.
fn print_beside(rt: &impl Print) -> io::Result<()> {
    print_search(rt, 262153, 38806, 262143)?;
    print_search(rt, 262153, 52435, 262143)
}

// What build answers of the element.
fn print_built(rt: &impl Print, f: u64, element: u64) -> io::Result<()> {
    let sheet = Built::<LARGEST>::new(f, element);
    println!(rt; "{sheet}: {}", Shown(sheet.answer.map(Graded)))
}

// A leader's grade is that of its class: 38805 squared is 119676, and 52434 squared 58800.
pub(crate) fn run(rt: &impl Print) -> io::Result<()> {
    println!(rt; "the best of whole fields, where it is optimal")?;
    print_whole_fields(rt)?;
    print_beside(rt)?;
    for element in &[38805, 119676, 52434, 58800] {
        print_built(rt, 262153, *element)?;
    }
    Ok(())
}
