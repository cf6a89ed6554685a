// What reading says of a sheet: its listing, or a line in words.
use super::output::Output;
use super::refusing::refuse;
use super::telling::refuse_for;
use listing::LISTING_ROOM;
use sheet::{RECORD, Row, Summary, polynomial_of, row_at};
use std::fmt;
use std::fmt::Write;
use streams::{Failure, Host};

// The listing in decimal, as the lister prints it.
fn put_listing<H: Host>(output: &mut Output<'_, H>, bytes: &[u8]) -> Result<(), Failure> {
    let mut text = [0u8; LISTING_ROOM];
    let end = listing::listing(bytes, &mut text);
    output.put(&text[..end])
}

// Row i: its number, conjugate, inverse row and table row.
fn put_row<H: Host>(output: &mut Output<'_, H>, i: usize, row: Row) -> fmt::Result {
    let conjugate = output.shown(row.conjugate);
    let inverse = output.shown(row.inverse);
    let table = output.shown(row.table);
    writeln!(output, "{i} {conjugate} {inverse} {table}")
}

fn put_rows<H: Host>(output: &mut Output<'_, H>, bytes: &[u8]) -> fmt::Result {
    for i in 0..bytes.len() / RECORD {
        put_row(output, i, row_at(bytes, i))?;
    }
    Ok(())
}

// Complexity and grade, in words.
fn put_kind<H: Host>(output: &mut Output<'_, H>, summary: Summary) -> fmt::Result {
    let complexity = summary.complexity;
    let grade = u64::from(summary.grade);
    writeln!(output, "complexity {complexity} grade {grade}")
}

// The listing of a sheet that reading accepts, or its refusal with the cause.
pub(crate) fn answer_listing<H: Host>(
    output: &mut Output<'_, H>,
    bytes: &[u8],
) -> Result<(), Failure> {
    match sheet::read(bytes) {
        Err(refusal) => Err(refuse_for(output.host, refusal, causes::why(bytes))),
        Ok(summary) => {
            if !output.hex {
                return put_listing(output, bytes);
            }
            put_rows(output, bytes)?;
            put_kind(output, summary)?;
            Ok(())
        }
    }
}

// Degree, f, element, complexity and grade of what reading accepts.
pub(crate) fn put_accepted<H: Host>(
    output: &mut Output<'_, H>,
    f: u64,
    element: u64,
    summary: Summary,
) -> Result<(), Failure> {
    let degree = summary.degree;
    let f = output.shown(f);
    let element = output.shown(element);
    write!(output, "accepted degree {degree} f {f} element {element} ")?;
    put_kind(output, summary)?;
    Ok(())
}

// The line on a sheet that reading accepts, or its refusal.
pub(crate) fn answer_verify<H: Host>(
    output: &mut Output<'_, H>,
    bytes: &[u8],
) -> Result<(), Failure> {
    match sheet::read(bytes) {
        Err(refusal) => Err(refuse(output.host, refusal)),
        Ok(summary) => {
            let f = polynomial_of(bytes);
            let row = row_at(bytes, 0);
            put_accepted(output, f, row.conjugate, summary)
        }
    }
}
