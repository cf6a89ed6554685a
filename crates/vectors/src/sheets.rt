// Sheets that are built, as the lister prints them, and elements that are refused.
use super::answers::Refused;
use super::built::{Built, FOUR, THREE, TWO};
use listing::LISTING_ROOM;
use std::io;

pub(crate) fn print_listing(rt: &impl Print, sheet: &[u8]) -> io::Result<()> {
    let mut text = [0u8; LISTING_ROOM];
    let end = listing::listing(sheet, &mut text);
    rt.write_all(&text[..end])
}

// What building answers, and the sheet where there is one.
fn print_sheet<const SIZE: usize>(rt: &impl Print, sheet: &Built<SIZE>) -> io::Result<()> {
    print!(rt; "f = {}, element {}:", sheet.f, sheet.element)?;
    match sheet.answer {
        Ok(_) => {
            println!(rt)?;
            print_listing(rt, &sheet.bytes)
        }
        Err(refusal) => println!(rt; " {}", Refused(refusal)),
    }
}

// The inverse rows of 19 and 9 are not among document 01's numbers: they follow from its definitions. The grade at 7 is document 02's (§3).
pub(crate) fn run(rt: &impl Print) -> io::Result<()> {
    for element in &[2, 1, 0, 4] {
        print_sheet(rt, &Built::<TWO>::new(7, *element))?;
    }
    print_sheet(rt, &Built::<THREE>::new(11, 3))?;
    print_sheet(rt, &Built::<THREE>::new(11, 2))?;
    print_sheet(rt, &Built::<FOUR>::new(19, 8))?;
    print_sheet(rt, &Built::<FOUR>::new(19, 9))
}
