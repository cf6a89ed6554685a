// Words that arrive unreduced (document 02, §6), on the sheets of 11 and 3 and of 19 and 8. The field calls and conversion from polynomials
// answer for the remainder modulo f, and the return trip gives that remainder. Coordinates must still be below 2^n.
use super::answers::Shown;
use super::built::{Built, FOUR, THREE};
use refusals::Refusal;
use std::io;

// How many words the lists here have.
const WORDS: usize = 6;

// What the field calls answer of a word. The other factor is 6, unreduced too.
fn print_operand(rt: &impl Print, f: u64, word: u64) -> io::Result<()> {
    let other = 6 ^ f;
    let product = Shown(field::multiply(f, word, other));
    let square = Shown(field::square(f, word));
    let trace = Shown(field::trace(f, word));
    println!(rt;
        "f = {f}, word {word}: times {other} gives {product}, square {square}, trace {trace}"
    )
}

// The coordinates of a word on a sheet, and the element that they stand for.
fn print_return<const SIZE: usize>(
    rt: &impl Print,
    sheet: &Built<SIZE>,
    word: u64,
) -> io::Result<()> {
    let coordinates = sheet.to_normal(word);
    let element = coordinates.and_then(|coordinates| sheet.to_polynomial(coordinates));
    println!(rt;
        "{sheet}: word {word} has coordinates {}, which is element {}",
        Shown(coordinates),
        Shown(element)
    )
}

// Multiples of f, and numbers beside them; `top` is f shifted up until its highest term is x^63. The last two words have bit 63 alone, and
// all bits.
fn print_words<const SIZE: usize>(
    rt: &impl Print,
    sheet: &Built<SIZE>,
    top: u64,
) -> io::Result<()> {
    let f = sheet.f;
    for word in &[f, top ^ f, f ^ 1, top ^ 5, 1u64 << 63, u64::MAX] {
        print_operand(rt, f, *word)?;
        print_return(rt, sheet, *word)?;
    }
    Ok(())
}

// The element that coordinates stand for: 2^n is refused.
fn print_element<const SIZE: usize>(
    rt: &impl Print,
    sheet: &Built<SIZE>,
    coordinates: u64,
) -> io::Result<()> {
    let element = sheet.to_polynomial(coordinates);
    println!(rt; "{sheet}: coordinates {coordinates}: {}", Shown(element))
}

// The numbers of a list, after the words that say which list it is.
fn print_list(rt: &impl Print, which: &str, list: &[u64]) -> io::Result<()> {
    print!(rt; "{which}")?;
    for number in list {
        print!(rt; " {number}")?;
    }
    println!(rt)
}

// What a call on a list answers, and what the lent list then holds.
fn print_answer(
    rt: &impl Print,
    taken: &str,
    answer: Result<(), Refusal>,
    list: &[u64],
) -> io::Result<()> {
    println!(rt; "as {taken}: {}", Shown(answer.map(|()| "done")))?;
    print_list(rt, "the lent list holds", list)
}

// A list of words, taken for elements and then for coordinates. As coordinates the second word is too large, and the lent list stays as it
// came.
fn print_lists<const SIZE: usize>(
    rt: &impl Print,
    sheet: &Built<SIZE>,
    top: u64,
) -> io::Result<()> {
    let from: [u64; WORDS] = [6, sheet.f, sheet.f ^ 1, top ^ 5, 1u64 << 63, u64::MAX];
    print!(rt; "{sheet}, ")?;
    print_list(rt, "list of words", &from)?;
    let mut coordinates = [9u64; WORDS];
    let answer = sheet::list_to_normal(&sheet.bytes, &from, &mut coordinates);
    print_answer(rt, "elements", answer, &coordinates)?;
    let mut elements = [9u64; WORDS];
    let answer = sheet::list_to_polynomial(&sheet.bytes, &from, &mut elements);
    print_answer(rt, "coordinates", answer, &elements)
}

// All of it on one sheet; `large` is 2^n.
fn print_sheet<const SIZE: usize>(
    rt: &impl Print,
    sheet: &Built<SIZE>,
    top: u64,
    large: u64,
) -> io::Result<()> {
    print_words(rt, sheet, top)?;
    print_element(rt, sheet, large)?;
    print_lists(rt, sheet, top)
}

// x^4 is not accepted: products and squares are done modulo it, and the trace gets refusal 2 whatever the word is.
pub(crate) fn run(rt: &impl Print) -> io::Result<()> {
    print_sheet(rt, &Built::<THREE>::new(11, 3), 11u64 << 60, 8)?;
    print_sheet(rt, &Built::<FOUR>::new(19, 8), 19u64 << 59, 16)?;
    print_operand(rt, 16, u64::MAX)
}
