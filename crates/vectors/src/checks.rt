// What the check answers of a polynomial.
use super::answers::Shown;
use std::io;

fn print_check(rt: &impl Print, name: &str, f: u64) -> io::Result<()> {
    println!(rt; "f = {name}: {}", Shown(field::check(f).map(|()| "done")))
}

pub(crate) fn run(rt: &impl Print) -> io::Result<()> {
    print_check(rt, "5", 5)?;
    print_check(rt, "3", 3)?;
    print_check(rt, "2^46 + 3", (1u64 << 46) + 3)?;
    print_check(rt, "2^47", 1u64 << 47)
}
