// Conversions and a product on the sheet of 11 and 3.
use super::answers::Shown;
use super::built::{Built, THREE};
use std::io;

// The coordinates of an element.
fn print_coordinates(rt: &impl Print, sheet: &Built<THREE>, element: u64) -> io::Result<()> {
    println!(rt;
        "{sheet}: element {element} has coordinates {}",
        Shown(sheet.to_normal(element))
    )
}

// The product of coordinates a and b, and its element.
fn print_product(rt: &impl Print, sheet: &Built<THREE>, a: u64, b: u64) -> io::Result<()> {
    let product = sheet::times(&sheet.bytes, a, b);
    let element = product.and_then(|product| sheet.to_polynomial(product));
    println!(rt;
        "{sheet}: coordinates {a} times {b} give {}, which is element {}",
        Shown(product),
        Shown(element)
    )
}

pub(crate) fn run(rt: &impl Print) -> io::Result<()> {
    let sheet = Built::<THREE>::new(11, 3);
    print_coordinates(rt, &sheet, 6)?;
    print_product(rt, &sheet, 1, 2)
}
