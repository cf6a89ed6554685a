// The full set of matrices (document 02, §4): the whole text of three sheets, read back, and the ones in the texts of source document 000's
// best normal bases for degrees 2 to 7. Its table D.5 names a basis by a minimal polynomial, in whose field x generates that basis, and counts
// the ones of all n matrices: 6, 15, 28, 45, 66, 133.
ghost use Rattle.std.specs.Prelude.{◌≤◌};

use super::answers::{Graded, Refused, Shown, TableRow};
use super::built::{Built, FOUR, THREE, TWO};
use matrices::{read_matrices, text_size, write_matrices};
use sheet::RECORD;
use std::io;

// The bytes of a text of degree 2, 3 and 4, and of the second without its last line, which is empty.
const SIZE_TWO: usize = 2 * (2 * 3 + 1);

const SIZE_THREE: usize = 3 * (3 * 4 + 1);

const SIZE_FOUR: usize = 4 * (4 * 5 + 1);

const SHORTER: usize = SIZE_THREE - 1;

// The minimal polynomials of table D.5, from degree 2 to the last one here.
const LAST: usize = 7;

const POLYNOMIALS: [u64; LAST - 1] = [7, 13, 31, 55, 115, 229];

const X: u64 = 2;

// The bytes of a sheet and of a text of the last degree.
const SEVEN: usize = LAST * RECORD;

const ROOM: usize = LAST * (LAST * (LAST + 1) + 1);

// What reading a text for the f and the element of a sheet answers, after the words that say which text it is.
fn print_reading<const SIZE: usize>(
    rt: &impl Print,
    sheet: &Built<SIZE>,
    which: &str,
    text: &[u8],
) -> io::Result<()> {
    let basis = read_matrices(sheet.f, sheet.element, text);
    println!(rt;
        "matrices of {} and {}{which}: {}",
        sheet.f,
        sheet.element,
        Shown(basis.map(Graded))
    )
}

// The text of a sheet, in a buffer of its size, and what reading it back answers.
fn print_text<const SIZE: usize>(
    rt: &impl Print,
    sheet: &Built<SIZE>,
    text: &mut [u8],
) -> io::Result<()> {
    println!(rt; "matrices of {} and {}:", sheet.f, sheet.element)?;
    match write_matrices(&sheet.bytes, text) {
        Err(refusal) => println!(rt; "{}", Refused(refusal)),
        Ok(_) => {
            rt.write_all(text)?;
            print_reading(rt, sheet, ", read back", text)
        }
    }
}

// What reading back answers of the text of degree 3 without its last line.
fn print_shorter(rt: &impl Print, sheet: &Built<THREE>, text: &[u8; SIZE_THREE]) -> io::Result<()> {
    print_reading(rt, sheet, " without the last line", &text[..SHORTER])
}

// On the sheet of degree 4 the table is not symmetric, so that a text with its indices in another order differs.
fn print_texts(rt: &impl Print) -> io::Result<()> {
    let mut text = [0u8; SIZE_TWO];
    print_text(rt, &Built::<TWO>::new(7, 2), &mut text)?;
    let three = Built::<THREE>::new(11, 3);
    let mut text = [0u8; SIZE_THREE];
    print_text(rt, &three, &mut text)?;
    print_shorter(rt, &three, &text)?;
    let mut text = [0u8; SIZE_FOUR];
    print_text(rt, &Built::<FOUR>::new(19, 8), &mut text)
}

// How many digits of a text are 1.
fn ones_in(text: &[u8]) -> usize {
    text.iter().filter(|digit| **digit == b'1').count()
}

// The ones in a text that reading accepts for x in the field of f.
fn print_ones(rt: &impl Print, f: u64, text: &[u8]) -> io::Result<()> {
    let basis = read_matrices(f, X, text);
    let row = basis.map(|basis| TableRow(basis.degree, ones_in(text) as u64));
    println!(rt; "{}", Shown(row))
}

// The ones in the text of x in the field of f, of degree n.
fn print_basis(rt: &impl Print, n: usize, f: u64) -> io::Result<()>
    requires { n ≤ 7 }
{
    let sheet = Built::<SEVEN>::new(f, X);
    let length = n * RECORD;
    let mut text = [0u8; ROOM];
    // Where writing is refused the text stays zero, and reading refuses that.
    let _ = write_matrices(&sheet.bytes[..length], &mut text);
    let size = text_size(n);
    print_ones(rt, f, &text[..size])
}

fn print_bases(rt: &impl Print) -> io::Result<()> {
    for (i, f) in POLYNOMIALS.iter().enumerate() {
        print_basis(rt, i + 2, *f)?;
    }
    Ok(())
}

pub(crate) fn run(rt: &impl Print) -> io::Result<()> {
    print_texts(rt)?;
    println!(rt; "ones in the matrices of the best bases, source document 000: degree, ones")?;
    print_bases(rt)
}
