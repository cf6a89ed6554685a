// The sheet file's bytes, and sheets that lost a record.
use super::answers::Shown;
use super::built::{Built, THREE, TWO};
use sheet::RECORD;
use std::io;

// Record 1, byte by byte.
fn print_record(rt: &impl Print, sheet: &Built<TWO>) -> io::Result<()> {
    print!(rt; "{sheet}: record 1 in hex")?;
    for byte in &sheet.bytes[RECORD..] {
        print!(rt; " {byte:02x}")?;
    }
    println!(rt)
}

// What reading answers of a sheet that lost a record.
fn print_reading(rt: &impl Print, name: &str, sheet: &[u8]) -> io::Result<()> {
    let read = sheet::read(sheet).map(|_| "done");
    println!(rt; "{name}: {}", Shown(read))
}

// Puts record 0 in the place of record 1: from there on stands the sheet without its middle record.
pub(crate) fn run(rt: &impl Print) -> io::Result<()> {
    let two = Built::<TWO>::new(7, 2);
    print_record(rt, &two)?;
    print_reading(
        rt,
        "sheet of 7 and 2 without record 0",
        &two.bytes[RECORD..],
    )?;
    let mut three = Built::<THREE>::new(11, 3);
    three.bytes.copy_within(..RECORD, RECORD);
    print_reading(
        rt,
        "sheet of 11 and 3 without its middle record",
        &three.bytes[RECORD..],
    )
}
