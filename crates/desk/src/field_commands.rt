// The commands on numbers: check, multiply, square, trace and search.
use super::answers::{put_best, put_value};
use super::input::Polynomial;
use super::refusing::refuse;
use super::task::Task;
use super::telling::refuse_for;
use gf2::degree_of;
use refusals::Refusal;
use search::Search;
use streams::{Failure, Host};

impl<H: Host> Task<'_, H> {
    // The polynomials that the command's words are, of which there are to be N.
    fn polynomials<const N: usize>(&self, usage: &'static str) -> Result<[u64; N], Failure> {
        self.have(N.saturating_add(1), usage)?;
        self.values::<Polynomial, N>(1)
    }
}

// Whether f is accepted; if not, its refusal with the cause.
pub(crate) fn check<H: Host>(task: &mut Task<'_, H>) -> Result<(), Failure> {
    let [f] = task.polynomials::<1>("check F")?;
    match field::check(f) {
        Ok(()) => task.output.put(b"accepted\n"),
        Err(refusal) => Err(refuse_for(task.host(), refusal, causes::why_check(f))),
    }
}

// The value of a call that takes operands of any size, so that none is too large.
fn answer<H: Host>(task: &mut Task<'_, H>, answer: Result<u64, Refusal>) -> Result<(), Failure> {
    match answer {
        Ok(value) => put_value(&mut task.output, value),
        Err(refusal) => Err(refuse(task.host(), refusal)),
    }
}

pub(crate) fn multiply<H: Host>(task: &mut Task<'_, H>) -> Result<(), Failure> {
    let [f, a, b] = task.polynomials::<3>("multiply F A B")?;
    answer(task, field::multiply(f, a, b))
}

pub(crate) fn square<H: Host>(task: &mut Task<'_, H>) -> Result<(), Failure> {
    let [f, a] = task.polynomials::<2>("square F A")?;
    answer(task, field::square(f, a))
}

pub(crate) fn trace<H: Host>(task: &mut Task<'_, H>) -> Result<(), Failure> {
    let [f, a] = task.polynomials::<2>("trace F A")?;
    answer(task, field::trace(f, a))
}

pub(crate) fn search<H: Host>(task: &mut Task<'_, H>) -> Result<(), Failure> {
    let [f, first, last] = task.polynomials::<3>("search F FIRST LAST")?;
    match search::search(f, first, last) {
        Search::Found(best) => put_best(&mut task.output, best),
        Search::Nothing => task.output.put(b"nothing\n"),
        Search::Refused(fault) => Err(task.refuse(Refusal::from(fault), degree_of(f))),
    }
}
