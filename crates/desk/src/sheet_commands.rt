// The commands on one sheet: build, show, list, verify, why, matrices, times, inverse and quotient.
ghost use Rattle.std.specs.Prelude.{◌≤◌, length, IfOk};

use super::answers::put_value;
use super::complaints::bad_words;
use super::input::{INPUT_ROOM, Number, Polynomial, degree_named, read_standard};
use super::listed::{answer_listing, answer_verify};
use super::matrix_text::answer_matrices;
use super::output::Output;
use super::task::Task;
use super::telling::answer_why;
use gf2::{LIMIT, degree_of};
use refusals::Refusal;
use sheet::RECORD;
use streams::{Failure, Host};

// Room for the longest sheet.
const SHEET_ROOM: usize = RECORD * LIMIT;

// The sheet of the words F ELEMENT, put at the front of the space.
fn build_words<'s, H: Host>(
    task: &Task<'_, H>,
    space: &'s mut [u8; SHEET_ROOM],
) -> Result<&'s [u8], Failure> {
    let [f, element] = task.values::<Polynomial, 2>(1)?;
    match sheet::build(f, element, space) {
        Ok(summary) => {
            let size = RECORD * summary.degree as usize;
            Ok(&space[..size.min(SHEET_ROOM)])
        }
        Err(refusal) => {
            Err(task.refuse_for(refusal, degree_of(f), causes::why_build(f, element)))
        }
    }
}

// The sheet of F and ELEMENT, its bytes.
pub(crate) fn build<H: Host>(task: &mut Task<'_, H>) -> Result<(), Failure> {
    task.have(3, "build F ELEMENT")?;
    if task.output.is_terminal() {
        let line =
            "desk: a sheet is bytes and no text for a terminal; write: desk build F ELEMENT > FILE, or --to FILE\n";
        return Err(bad_words(task.host(), line));
    }
    let mut space = [0u8; SHEET_ROOM];
    let bytes = build_words(task, &mut space)?;
    task.output.put(bytes)
}

// The sheet of F and ELEMENT, listed.
pub(crate) fn show<H: Host>(task: &mut Task<'_, H>) -> Result<(), Failure> {
    task.have(3, "show F ELEMENT")?;
    let mut space = [0u8; SHEET_ROOM];
    let bytes = build_words(task, &mut space)?;
    answer_listing(&mut task.output, bytes)
}

// The sheet that word 1 names, or the one on standard input if there is no such word.
fn read_named<'s, H: Host>(
    task: &Task<'_, H>,
    usage: &'static str,
    space: &'s mut [u8],
) -> Result<&'s [u8], Failure>
    ensures { IfOk result (λ bytes. length bytes.now ≤ length space.old) }
{
    match task.places() {
        [_] => read_standard(task.host(), space),
        [_, _] => task.read_sheet(space),
        _ => Err(task.wrong_count(usage)),
    }
}

// What is told of a sheet that is read.
fn read_and_tell<H: Host, F: FnOnce(&mut Output<'_, H>, &[u8]) -> Result<(), Failure>>(
    task: &mut Task<'_, H>,
    usage: &'static str,
    tell: F,
) -> Result<(), Failure>
    requires { F.IsAlwaysCallable tell }
{
    let mut space = [0u8; INPUT_ROOM];
    let bytes = read_named(task, usage, &mut space)?;
    tell(&mut task.output, bytes)
}

pub(crate) fn list<H: Host>(task: &mut Task<'_, H>) -> Result<(), Failure> {
    read_and_tell(
        task,
        "list SHEET, or desk list < SHEET",
        answer_listing::<H>,
    )
}

pub(crate) fn verify<H: Host>(task: &mut Task<'_, H>) -> Result<(), Failure> {
    read_and_tell(
        task,
        "verify SHEET, or desk verify < SHEET",
        answer_verify::<H>,
    )
}

pub(crate) fn why<H: Host>(task: &mut Task<'_, H>) -> Result<(), Failure> {
    read_and_tell(task, "why SHEET, or desk why < SHEET", answer_why::<H>)
}

pub(crate) fn matrices<H: Host>(task: &mut Task<'_, H>) -> Result<(), Failure> {
    read_and_tell(
        task,
        "matrices SHEET, or desk matrices < SHEET",
        answer_matrices::<H>,
    )
}

impl<H: Host> Task<'_, H> {
    // The coordinates that the words after the sheet are, of which there are to be N.
    fn coordinates<const N: usize>(&self, usage: &'static str) -> Result<[u64; N], Failure> {
        self.have(N.saturating_add(2), usage)?;
        self.values::<Number, N>(2)
    }
}

// What is worked out of normal coordinates through the sheet of word 1.
fn compute<H: Host, F: FnOnce(&[u8]) -> Result<u64, Refusal>>(
    task: &mut Task<'_, H>,
    work: F,
) -> Result<(), Failure>
    requires { F.IsAlwaysCallable work }
{
    let mut space = [0u8; INPUT_ROOM];
    let bytes = task.read_sheet(&mut space)?;
    match work(bytes) {
        Ok(value) => put_value(&mut task.output, value),
        Err(refusal) => Err(task.refuse(refusal, degree_named(bytes))),
    }
}

pub(crate) fn times<H: Host>(task: &mut Task<'_, H>) -> Result<(), Failure> {
    let [a, b] = task.coordinates::<2>("times SHEET A B")?;
    compute(task, |bytes| sheet::times(bytes, a, b))
}

pub(crate) fn inverse<H: Host>(task: &mut Task<'_, H>) -> Result<(), Failure> {
    let [a] = task.coordinates::<1>("inverse SHEET A")?;
    compute(task, |bytes| sheet::inverse(bytes, a))
}

pub(crate) fn quotient<H: Host>(task: &mut Task<'_, H>) -> Result<(), Failure> {
    let [a, b] = task.coordinates::<2>("quotient SHEET A B")?;
    compute(task, |bytes| sheet::quotient(bytes, a, b))
}
