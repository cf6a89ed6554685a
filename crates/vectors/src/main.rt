// Runs document 01's "Small numbers to hold it against" and the complexities of source documents 000 and 001. The file stdout has
// what those documents say, and for division, grades, matrices, causes and unreduced words (document 02, §1, §3, §4, §5 and §6) numbers
// that follow from its sentences. By theme:
//   complexities   the least complexity of small fields
//   generators     the bases of 001's table 5
//   sheets         sheets that are built, and elements that are refused
//   conversions    coordinates, and a product, on one sheet
//   divisions      inverses and quotients on two sheets
//   checks         polynomials that the check takes or refuses
//   searches       the searches at f = 19
//   grades         the grades of the best, and both kinds at degree 18
//   texts          the matrices of three sheets as text, and the ones of the best
//   reasons        the causes of refusals 2, 5 and 10, the last for each row of a sheet
//   records        the bytes of a record, and sheets that lost one
//   unreduced      words that arrive unreduced on two sheets
//   degrees        such words at every degree, counted by remainders
#![tactic(auto)]

mod answers;
mod built;
mod checks;
mod complexities;
mod conversions;
mod degrees;
mod divisions;
mod generators;
mod grades;
mod reasons;
mod records;
mod remainders;
mod searches;
mod sheets;
mod texts;
mod unreduced;

use std::io;
use streams::{Ending, cannot, end, finish_output};

fn run(rt: &impl Print) -> io::Result<()> {
    complexities::run(rt)?;
    generators::run(rt)?;
    sheets::run(rt)?;
    conversions::run(rt)?;
    divisions::run(rt)?;
    checks::run(rt)?;
    searches::run(rt)?;
    grades::run(rt)?;
    texts::run(rt)?;
    reasons::run(rt)?;
    records::run(rt)?;
    unreduced::run(rt)?;
    degrees::run(rt)
}

fn main(rt: HostRuntime) {
    let ended = match run(&rt) {
        Ok(()) => finish_output(&rt),
        Err(why) => Err(cannot(&rt, b"write", b"standard output", &why)),
    };
    end(&rt, Ending::from(ended));
}
