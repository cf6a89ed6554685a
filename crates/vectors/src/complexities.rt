// The least complexity of a normal basis, a line for each degree 2 to 20: source document 000's normal basis column, divided by the degree.
use super::answers::TableRow;
use search::Search;
use std::io;

// A polynomial that is accepted, for each degree from 2 on.
const FIELDS: [u64; 19] = [
    7, 11, 19, 37, 67, 131, 283, 515, 1033, 2053, 4105, 8219, 16417, 32771, 65579, 131081, 262153,
    524327, 1048585,
];

// The least complexity in a whole field, or 0, which no basis has. A line shows it as a number, so an Option would be taken apart there.
fn least_complexity(f: u64, last: u64) -> u64 {
    match search::search(f, 0, last) {
        Search::Found(best) => u64::from(best.complexity),
        Search::Refused(_) | Search::Nothing => 0,
    }
}

fn print_least(rt: &impl Print) -> io::Result<()> {
    for (i, f) in FIELDS.iter().enumerate() {
        let n = i as u32 + 2;
        let last = u64::MAX >> (64 - n);
        let least = least_complexity(*f, last);
        println!(rt; "{}", TableRow(n, least))?;
    }
    Ok(())
}

pub(crate) fn run(rt: &impl Print) -> io::Result<()> {
    println!(rt; "least complexities, source document 000: degree, complexity")?;
    print_least(rt)
}
