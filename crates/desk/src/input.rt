// The words of the command line and the sheets and texts of files, as the calls take them.
ghost use Rattle.std.specs.Prelude.{◌≡◌, ◌≤◌, length, IfOk};

use super::complaints::{Fault, bad_word};
use gf2::LIMIT;
use sheet::RECORD;
use std::fs::File;
use std::io::{Error, Read};
use streams::{Failure, Host, cannot, read_whole, word_at};

// Room for a word. No number needs as many bytes, but for zeros in front.
pub(crate) const WORD_ROOM: usize = 256;

// A sheet's room, and one byte by which a longer input shows.
pub(crate) const INPUT_ROOM: usize = RECORD * LIMIT + 1;

pub(crate) fn word_space() -> [u8; WORD_ROOM]
    ensures { 256 ≡ length result }
{
    [0; WORD_ROOM]
}

// What the system calls a path that is too long, and a name whose bytes are no text.
const ENAMETOOLONG: i32 = 36;

const EILSEQ: i32 = 84;

// How a value is written.
pub(crate) trait Form {
    // What is said of a word that is no such value: the rest of the line after the word.
    const EXPECTED: &'static str;

    // The value that a word is.
    fn value_of(word: &[u8]) -> Option<u64>;
}

// An element or a polynomial, which may be written as exponents.
pub(crate) struct Polynomial;

// Coordinates.
pub(crate) struct Number;

impl Form for Polynomial {
    const EXPECTED: &'static str =
        " is no polynomial; write it in decimal (19), in hexadecimal (0x13) or as falling exponents (4:1:0), below 2^64\n";

    fn value_of(word: &[u8]) -> Option<u64> {
        words::polynomial(word)
    }
}

impl Form for Number {
    const EXPECTED: &'static str =
        " is no number; write it in decimal (19) or in hexadecimal (0x13), below 2^64\n";

    fn value_of(word: &[u8]) -> Option<u64> {
        words::number(word)
    }
}

// The value of word i. If it has none, a line says so.
fn value_at<F: Form, H: Host>(host: &H, i: usize) -> Result<u64, Failure> {
    let mut space = word_space();
    F::value_of(word_at(host, i, &mut space)).ok_or_else(|| bad_word(
        host,
        i,
        Fault::NoValue(F::EXPECTED),
    ))
}

// The values of the words at some places of the command line, put into a list in their order.
pub(crate) fn read_values<F: Form, H: Host>(
    host: &H,
    places: &[usize],
    values: &mut [u64],
) -> Result<(), Failure> {
    for (value, place) in values.iter_mut().zip(places) {
        *value = value_at::<F, H>(host, *place)?;
    }
    Ok(())
}

// Whether word i is `-`, which stands for standard input.
pub(crate) fn is_dash<H: Host>(host: &H, i: usize) -> bool {
    let mut space = word_space();
    word_at(host, i, &mut space) == b"-".as_slice()
}

// A path as std takes it. One whose bytes are no text it cannot name.
pub(crate) fn text_of(path: &[u8]) -> Result<&str, Error>
    ensures { IfOk result (λ text. text.now ≡ path.now) }
{
    str::from_utf8(path).map_err(|_| Error::from_raw_os_error(EILSEQ))
}

fn open_file<H: Host>(host: &H, path: &[u8]) -> Result<H::File, Error> {
    File::open(host, text_of(path)?)
}

// The file that word i names, open to be read. If it cannot be opened, a line says so.
pub(crate) fn open_input<H: Host>(host: &H, i: usize) -> Result<H::File, Failure> {
    let mut space = io::buffer();
    let Ok(size) = host.arg(i, &mut space) else {
        let why = Error::from_raw_os_error(ENAMETOOLONG);
        let path = b"a path of more than 4095 bytes";
        return Err(cannot(host, b"open", path, &why));
    };
    let path = &space[..size];
    open_file(host, path).map_err(|why| cannot(host, b"open", path, &why))
}

// What an open input has, as far as there is space. If a read fails, a line says so.
fn read_open<'s, H: Host, R: Read>(
    host: &H,
    input: &mut R,
    name: &[u8],
    space: &'s mut [u8],
) -> Result<&'s [u8], Failure>
    ensures { IfOk result (λ bytes. length bytes.now ≤ length space.old) }
{
    match read_whole(input, space) {
        Ok(size) => Ok(&space[..size]),
        Err(why) => Err(cannot(host, b"read", name, &why)),
    }
}

// What standard input has, as read_open reads it.
pub(crate) fn read_standard<'s, H: Host>(host: &H, space: &'s mut [u8]) -> Result<&'s [u8], Failure>
    ensures { IfOk result (λ bytes. length bytes.now ≤ length space.old) }
{
    read_open(host, &mut host.reader(), b"standard input", space)
}

// What the input that word i names has, `-` for standard input. If that fails, a line has said so.
pub(crate) fn read_input<'s, H: Host>(
    host: &H,
    i: usize,
    space: &'s mut [u8],
) -> Result<&'s [u8], Failure>
    ensures { IfOk result (λ bytes. length bytes.now ≤ length space.old) }
{
    if is_dash(host, i) {
        return read_standard(host, space);
    }
    let mut file = open_input(host, i)?;
    let mut path = io::buffer();
    read_open(host, &mut file, word_at(host, i, &mut path), space)
}

// The degree that a sheet's first byte names; on a sheet of good shape it is the number of its records.
pub(crate) fn degree_named(bytes: &[u8]) -> u32 {
    bytes.first().map_or(0, |byte| u32::from(*byte))
}
