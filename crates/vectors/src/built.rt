// A sheet that is built, beside the polynomial and the element that it is of, and what building it answered.
use gf2::LIMIT;
use refusals::Refusal;
use sheet::{RECORD, Summary};
use std::fmt;

// The sizes of the sheets of degree 2, 3 and 4, and of the largest.
pub(crate) const TWO: usize = 2 * RECORD;

pub(crate) const THREE: usize = 3 * RECORD;

pub(crate) const FOUR: usize = 4 * RECORD;

pub(crate) const LARGEST: usize = LIMIT * RECORD;

#[derive(Clone, Copy)]
pub(crate) struct Built<const SIZE: usize> {
    pub f: u64,
    pub element: u64,
    pub answer: Result<Summary, Refusal>,
    pub bytes: [u8; SIZE],
}

impl<const SIZE: usize> Built<SIZE> {
    // The bytes may be more than the sheet needs. Where building is refused they stay zero, and those are no sheet.
    pub(crate) fn new(f: u64, element: u64) -> Built<SIZE> {
        let mut bytes = [0u8; SIZE];
        let answer = sheet::build(f, element, &mut bytes);
        Built {
            f,
            element,
            answer,
            bytes,
        }
    }

    pub(crate) fn to_normal(&self, word: u64) -> Result<u64, Refusal> {
        sheet::to_normal(&self.bytes, word)
    }

    pub(crate) fn to_polynomial(&self, coordinates: u64) -> Result<u64, Refusal> {
        sheet::to_polynomial(&self.bytes, coordinates)
    }
}

// Its name in a line.
impl<const SIZE: usize> fmt::Display for Built<SIZE> {
    fn fmt<W: fmt::Write>(&self, f: &mut fmt::Formatter<W>) -> fmt::Result {
        write!(f, "sheet of {} and {}", self.f, self.element)
    }
}
