// Refusal 14 in words: how the text of the matrices differs at the first line that is not right, what must stand there, and how to get
// the right text.
use super::complaints::Errors;
use super::lines::NEWLINE;
use super::refusing::refused;
use super::task::Task;
use gf2::degree_of;
use refusals::{Fault, Refusal};
use std::fmt;
use std::fmt::Write;
use streams::{Failure, Host};

// The lines of a text that have their end.
fn line_count(text: &[u8]) -> usize {
    text.iter().filter(|byte| **byte == NEWLINE).count()
}

// Whether a text is empty or its last line has its end.
fn is_whole(text: &[u8]) -> bool {
    matches!(text, [] | [.., NEWLINE])
}

// Whether a text ends before the line at a place. All lines before it are right, so it does if it has as many and nothing after them.
fn is_missing(text: &[u8], place: usize) -> bool {
    line_count(text) == place && is_whole(text)
}

impl<H: Host> Errors<'_, H> {
    // What must stand at a place: a matrix has n rows and an empty line.
    fn expected(&mut self, place: usize, n: u32) -> fmt::Result {
        let matrix = place / (n as usize + 1);
        let row = place % (n as usize + 1);
        if row == n as usize {
            write!(self, "the empty line after matrix {matrix}")
        } else {
            write!(self, "row {row} of matrix {matrix}")
        }
    }

    // How the text differs at a place. After n matrices the right text has ended.
    fn difference(&mut self, text: &[u8], place: usize, n: u32) -> fmt::Result {
        if place / (n as usize + 1) >= n as usize {
            return self.write_str("extra; the right text ends before it");
        }
        if is_missing(text, place) {
            self.write_str("missing; it must be ")?;
        } else {
            self.write_str("wrong; it must be ")?;
        }
        self.expected(place, n)
    }

    fn mismatch(&mut self, refusal: Refusal, text: &[u8], n: u32) -> fmt::Result {
        self.begin(refusal.fault, refusal.place as u64)?;
        self.write_str("the line at this place, counted from 0, is ")?;
        self.difference(text, refusal.place, n)?;
        self.write_str("; desk build F ELEMENT | desk matrices writes the right text\n")
    }
}

impl<H: Host> Task<'_, H> {
    // A refusal of a text for the f and the element that stand on the command line.
    pub(crate) fn refuse_text(&self, refusal: Refusal, text: &[u8], f: u64) -> Failure {
        let degree = degree_of(f);
        if refusal.fault != Fault::OtherText {
            return self.refuse(refusal, degree);
        }
        refused(Errors(self.host()).mismatch(refusal, text, degree))
    }
}
