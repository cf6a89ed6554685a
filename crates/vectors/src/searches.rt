// The searches at f = 19.
use search::Search;
use std::io;

// What the search of a range answers.
pub(crate) fn print_search(rt: &impl Print, f: u64, first: u64, last: u64) -> io::Result<()> {
    print!(rt; "f = {f}, search {first} to {last}: ")?;
    match search::search(f, first, last) {
        Search::Refused(fault) => println!(rt; "refusal {}", fault.number()),
        Search::Nothing => println!(rt; "nothing"),
        Search::Found(best) => println!(rt;
            "{}, complexity {}, grade {}, count {}",
            best.element,
            best.complexity,
            u64::from(best.grade),
            best.count
        ),
    }
}

pub(crate) fn run(rt: &impl Print) -> io::Result<()> {
    print_search(rt, 19, 0, 15)?;
    print_search(rt, 19, 9, 15)?;
    print_search(rt, 19, 10, 15)
}
