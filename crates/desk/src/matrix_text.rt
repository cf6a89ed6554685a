// The n matrices of a sheet as text (document 02, §4): written from a sheet, and read back for f and an element.
ghost use Rattle.std.specs.Prelude.{◌≡◌, ◌+◌, ◌*◌, ◌≤◌, length, IfOk};
ghost use Rattle.gf2.specs.Limit.{limit};
ghost use Rattle.matrices.specs.Matrices.{text_size};

use super::input::{Polynomial, read_input, read_standard};
use super::listed::put_accepted;
use super::output::Output;
use super::refusing::refuse;
use super::task::Task;
use gf2::LIMIT;
use matrices::{TEXT_LIMIT, read_matrices, text_size, write_matrices};
use streams::{Failure, Host};

// Room for the longest text, and one byte by which a longer input shows. Every right text is shorter than this room. So the bytes that
// fill it decide on a longer input too: it is refused, at the same place as its beginning.
const TEXT_ROOM: usize = TEXT_LIMIT + 1;

// Zeros in a text's room.
fn text_space() -> [u8; TEXT_ROOM]
    ensures { limit * (limit * (limit + 1) + 1) + 1 ≡ length result }
{
    [0; TEXT_ROOM]
}

// The bytes of the text for degree n. No sheet has a larger degree than the limit.
fn size_for(n: usize) -> usize
    ensures { (n ≤ limit → result ≡ text_size n) × (result ≤ limit * (limit * (limit + 1) + 1)) }
{
    if n > LIMIT {
        return 0;
    }
    text_size(n)
}

// The matrices of a sheet that reading accepts, or its refusal.
pub(crate) fn answer_matrices<H: Host>(
    output: &mut Output<'_, H>,
    bytes: &[u8],
) -> Result<(), Failure> {
    let mut text = text_space();
    match write_matrices(bytes, &mut text) {
        Ok(summary) => output.put(&text[..size_for(summary.degree as usize)]),
        Err(refusal) => Err(refuse(output.host, refusal)),
    }
}

// The text of the file after --from, or of standard input if there is none. What follows after the room is full is not read.
fn read_text<'s, H: Host>(task: &Task<'_, H>, space: &'s mut [u8]) -> Result<&'s [u8], Failure>
    ensures { IfOk result (λ text. length text.now ≤ length space.old) }
{
    match task.given.from {
        Some(from) => read_input(task.host(), from, space),
        None => read_standard(task.host(), space),
    }
}

// The line on the matrices of f and the element if the text has them, or the refusal.
pub(crate) fn read<H: Host>(task: &mut Task<'_, H>) -> Result<(), Failure> {
    task.have(
        3,
        "read-matrices F ELEMENT < TEXT, or desk read-matrices F ELEMENT --from TEXT",
    )?;
    let [f, element] = task.values::<Polynomial, 2>(1)?;
    let mut space = text_space();
    let text = read_text(task, &mut space)?;
    match read_matrices(f, element, text) {
        Ok(summary) => put_accepted(&mut task.output, f, element, summary),
        Err(refusal) => Err(task.refuse_text(refusal, text, f)),
    }
}
