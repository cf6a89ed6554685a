// Inverses and quotients of normal coordinates on the sheets of 11 and 3 and of 19 and 8.
use super::answers::Shown;
use super::built::{Built, FOUR, THREE};
use std::io;

// The inverse of coordinates a.
fn print_inverse<const SIZE: usize>(
    rt: &impl Print,
    sheet: &Built<SIZE>,
    a: u64,
) -> io::Result<()> {
    let inverse = sheet::inverse(&sheet.bytes, a);
    println!(rt; "{sheet}, inverse of {a}: {}", Shown(inverse))
}

// The quotient of coordinates a and b.
fn print_quotient(rt: &impl Print, sheet: &Built<THREE>, a: u64, b: u64) -> io::Result<()> {
    let quotient = sheet::quotient(&sheet.bytes, a, b);
    println!(rt; "{sheet}, {a} divided by {b}: {}", Shown(quotient))
}

// On the first sheet 1 times 2 is 5.
pub(crate) fn run(rt: &impl Print) -> io::Result<()> {
    let three = Built::<THREE>::new(11, 3);
    for a in &[1, 3, 5, 7, 0] {
        print_inverse(rt, &three, *a)?;
    }
    print_quotient(rt, &three, 5, 2)?;
    print_quotient(rt, &three, 0, 2)?;
    print_quotient(rt, &three, 5, 0)?;
    print_quotient(rt, &three, 8, 0)?;
    let four = Built::<FOUR>::new(19, 8);
    print_inverse(rt, &four, 3)?;
    print_inverse(rt, &four, 6)
}
