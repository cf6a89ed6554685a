// The commands that convert values through a sheet: normal and polynomial. The values are words of the command line, or come by line.
ghost use Rattle.std.specs.Prelude.{◌≤◌, length};

use super::by_line::convert_input;
use super::complaints::bad_words;
use super::input::{
    Form, INPUT_ROOM, Number, Polynomial, degree_named, is_dash, open_input, read_values,
};
use super::lines::Lines;
use super::options::{MOST_WORDS, VALUES_AT};
use super::refusing::refuse;
use super::task::Task;
use super::values::{list_space, put_values};
use refusals::Refusal;
use std::io::Read;
use streams::{Failure, Host, word_at};

// What values are carried to: another notation.
pub(crate) trait Conversion {
    // How they are written before.
    type From: Form;

    const USAGE: &'static str;

    // Converts the values of a list through a sheet.
    fn convert(bytes: &[u8], from: &[u64], into: &mut [u64]) -> Result<(), Refusal>;
}

struct ToNormal;

struct ToPolynomial;

impl Conversion for ToNormal {
    type From = Polynomial;

    const USAGE: &'static str = "normal SHEET VALUE.., normal SHEET - or normal SHEET --from FILE";

    fn convert(bytes: &[u8], from: &[u64], into: &mut [u64]) -> Result<(), Refusal> {
        sheet::list_to_normal(bytes, from, into)
    }
}

impl Conversion for ToPolynomial {
    type From = Number;

    const USAGE: &'static str =
        "polynomial SHEET VALUE.., polynomial SHEET - or polynomial SHEET --from FILE";

    fn convert(bytes: &[u8], from: &[u64], into: &mut [u64]) -> Result<(), Refusal> {
        sheet::list_to_polynomial(bytes, from, into)
    }
}

// Values from the words of the command line, converted through the sheet of word 1, a line each.
fn convert_words<C: Conversion, H: Host>(task: &mut Task<'_, H>) -> Result<(), Failure> {
    let mut from = list_space();
    let mut into = list_space();
    let places = task.places().get(VALUES_AT..).unwrap_or(&[]);
    let count = places.len().min(from.len());
    read_values::<C::From, H>(task.host(), places, &mut from[..count])?;
    let mut space = [0u8; INPUT_ROOM];
    let bytes = task.read_sheet(&mut space)?;
    match C::convert(bytes, &from[..count], &mut into[..count]) {
        Ok(()) => put_values(&mut task.output, &into[..count]),
        Err(refusal) => Err(task.refuse(refusal, degree_named(bytes))),
    }
}

// Values by line from an open input. The sheet is judged first, by an empty list: one that is refused is so before anything is read.
fn convert_open<C: Conversion, H: Host, R: Read>(
    task: &mut Task<'_, H>,
    lines: &mut Lines<'_, H, R>,
) -> Result<(), Failure> {
    let mut space = [0u8; INPUT_ROOM];
    let bytes = task.read_sheet(&mut space)?;
    let mut none = [0u64; 0];
    match C::convert(bytes, &[], &mut none) {
        Ok(()) => convert_input::<C, H, R>(bytes, lines, &mut task.output),
        Err(refusal) => Err(refuse(task.host(), refusal)),
    }
}

// Values by line from the file after --from.
fn convert_file<C: Conversion, H: Host>(
    task: &mut Task<'_, H>,
    from: usize,
) -> Result<(), Failure> {
    let host = task.host();
    if is_dash(host, from) {
        return convert_standard::<C, H>(task);
    }
    let mut file = open_input(host, from)?;
    let mut path = io::buffer();
    let mut lines = Lines::new(host, &mut file, word_at(host, from, &mut path));
    convert_open::<C, H, _>(task, &mut lines)
}

// Values by line from standard input, where the sheet must not come from too.
fn convert_standard<C: Conversion, H: Host>(task: &mut Task<'_, H>) -> Result<(), Failure> {
    let host = task.host();
    if is_dash(host, task.place(1)) {
        let line =
            "desk: the sheet and the values cannot both be standard input; name a file for one\n";
        return Err(bad_words(host, line));
    }
    let mut input = host.reader();
    let mut lines = Lines::new(host, &mut input, b"standard input");
    convert_open::<C, H, _>(task, &mut lines)
}

fn convert<C: Conversion, H: Host>(task: &mut Task<'_, H>) -> Result<(), Failure> {
    let host = task.host();
    if let Some(from) = task.given.from {
        task.have(VALUES_AT, C::USAGE)?;
        return convert_file::<C, H>(task, from);
    }
    match task.places() {
        [] | [_] | [_, _] => Err(task.wrong_count(C::USAGE)),
        [_, _, value] if is_dash(host, *value) => convert_standard::<C, H>(task),
        words if words.len() > MOST_WORDS => Err(bad_words(
            host,
            "desk: more than 4096 values; give them by line, from standard input (-) or with --from FILE\n",
        )),
        _ => convert_words::<C, H>(task),
    }
}

pub(crate) fn normal<H: Host>(task: &mut Task<'_, H>) -> Result<(), Failure> {
    convert::<ToNormal, H>(task)
}

pub(crate) fn polynomial<H: Host>(task: &mut Task<'_, H>) -> Result<(), Failure> {
    convert::<ToPolynomial, H>(task)
}
