// The pages that `desk help` and `desk version` print.
use super::task::Task;
use streams::{Failure, Host};

// The lines of the help page, each written in one piece.
const HELP: [&str; 47] = [
    "desk check F                    whether the defining polynomial F is accepted\n",
    "desk multiply F A B             A times B modulo F; A and B may be any 64-bit numbers\n",
    "desk square F A                 A times A modulo F; A may be any 64-bit number\n",
    "desk trace F A                  the sum of the conjugates of A, 0 or 1; A may be any 64-bit number\n",
    "desk search F FIRST LAST        the normal basis of least complexity from FIRST to LAST\n",
    "desk build F ELEMENT            the sheet of ELEMENT, its bytes on standard output\n",
    "desk show F ELEMENT             the sheet of ELEMENT, listed\n",
    "desk list SHEET                 a sheet, read and listed; without SHEET, standard input\n",
    "desk verify SHEET               whether a sheet is right: degree, F, element, complexity and grade;\n",
    "                                without SHEET, standard input\n",
    "desk why SHEET                  why a sheet is refused, in one sentence; without SHEET, standard input\n",
    "desk normal SHEET VALUE..       the normal coordinates of elements, which may be any 64-bit numbers;\n",
    "                                with - for VALUE, from standard input\n",
    "desk polynomial SHEET VALUE..   the elements of normal coordinates; with - for VALUE, from standard input\n",
    "desk times SHEET A B            the product of normal coordinates\n",
    "desk inverse SHEET A            the inverse of normal coordinates\n",
    "desk quotient SHEET A B         A divided by B, in normal coordinates\n",
    "desk matrices SHEET             all matrices of a sheet as text; without SHEET, standard input\n",
    "desk read-matrices F ELEMENT    whether the text on standard input is that of F and ELEMENT:\n",
    "                                degree, F, element, complexity and grade\n",
    "desk help                       this page; also -h and --help\n",
    "desk version                    the version; also --version\n",
    "\n",
    "--hex          writes polynomials, elements and coordinates in hexadecimal\n",
    "--from FILE    with normal and polynomial: reads the values from FILE, one a line;\n",
    "               with read-matrices: reads the text from FILE\n",
    "--to FILE      writes the answer to FILE, which is replaced only if all was written\n",
    "\n",
    "F is a polynomial of degree 2 to 46, an element one of smaller degree. Bit i of its number is the\n",
    "coefficient of x^i: x^4 + x + 1 is 19, 0x13 or, by its exponents, 4:1:0. Coordinates are decimal or 0x\n",
    "hexadecimal numbers. SHEET is a file that desk build wrote, or - for standard input. By line come\n",
    "any number of values, one each; a line that is no value ends the command, and those before it are converted.\n",
    "Elements may come unreduced: multiply, square, trace and normal take any number below 2^64, and answer for\n",
    "its remainder modulo F, or modulo the polynomial of the sheet; desk multiply F A 1 is the remainder itself.\n",
    "ELEMENT, FIRST, LAST and normal coordinates must be below 2^n, for degree n.\n",
    "A listing has a line for each row: its number, conjugate, inverse row and table row.\n",
    "The text of the matrices has n matrices for degree n, and an empty line after each. A row is a line of n digits:\n",
    "digit j of row i in matrix k is bit k of the normal coordinates of conjugate i times conjugate j.\n",
    "Grade 0: the complexity is not 2n-1, for degree n. If it is, the basis is optimal: grade 1 of the first kind,\n",
    "2 of the second, 3 of both (at degree 2).\n",
    "\n",
    "A refusal is a line on standard error: refused NUMBER PLACE, and what it means. With check, build, show and list\n",
    "the cause of 2, 3, 5 and 10 follows alone on a second line, in decimal: for 2 the smallest divisor of F of degree\n",
    "1 or more; for 3 what x became; for 5 the smallest number above 0 whose set bits select conjugates that sum to\n",
    "zero; for 10 the record, the word conjugate, inverse or table, the stored number and the right one.\n",
    "The sentence of why goes to standard output, and the exit status says whether the sheet is refused.\n",
    "Exit status: 0 done, 1 refused, 2 a word cannot be used, 3 could not run, read or write.\n",
];

pub(crate) fn put_help<H: Host>(task: &mut Task<'_, H>) -> Result<(), Failure> {
    for line in HELP {
        task.output.put(line.as_bytes())?;
    }
    Ok(())
}

// The one version number of the program, the C header and the Rust crate.
pub(crate) fn put_version<H: Host>(task: &mut Task<'_, H>) -> Result<(), Failure> {
    task.output.put(b"desk 4.0.0\n")
}
