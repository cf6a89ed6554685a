// The rows of the refusal table, each with its number.
ghost use Rattle.std.specs.Prelude.{◌≡◌, Some};
ghost use Rattle.refusals.specs.Verdicts.{fault_number};
ghost use Rattle.refusals.specs.Meanings.{meaning};

use std::fmt;

// What a call refuses for, in the order of the table.
#[derive(Clone, Copy, Debug, PartialEq, Eq)]
pub enum Fault {
    // 1: the degree of f is not 2 to 46.
    DegreeOutside,
    // 2: a polynomial of smaller degree, other than 1, divides f.
    Divided,
    // 3: squaring x as many times as the degree of f does not bring it back.
    Strays,
    // 4: a candidate element, coordinate number or range end has more bits than the degree.
    TooLarge,
    // 5: the element is not normal.
    NotNormal,
    // 6: the buffer is shorter than the sheet or the text.
    NoRoom,
    // 7: the sheet's length is not 32 bytes times a count of 2 to 46.
    BadLength,
    // 8: a record's degree, row number or polynomial does not fit in.
    Misplaced,
    // 9: a record's polynomial or one of its rows has more bits than the degree.
    Oversized,
    // 10: a record is not the one that the polynomial and the element give.
    Differs,
    // 11: the lists differ in length or have more than 4096 values.
    BadList,
    // 12: the first of the range is greater than the last.
    EmptyRange,
    // 13: the divisor, or the number to invert, is zero.
    ZeroDivisor,
    // 14: the text is not that of the polynomial and the element.
    OtherText,
}

impl Fault {
    // The number of the row, which C and the programs' users know it by.
    pub fn number(self) -> u8
        ensures { result ≡ fault_number self }
    {
        match self {
            Fault::DegreeOutside => 1,
            Fault::Divided => 2,
            Fault::Strays => 3,
            Fault::TooLarge => 4,
            Fault::NotNormal => 5,
            Fault::NoRoom => 6,
            Fault::BadLength => 7,
            Fault::Misplaced => 8,
            Fault::Oversized => 9,
            Fault::Differs => 10,
            Fault::BadList => 11,
            Fault::EmptyRange => 12,
            Fault::ZeroDivisor => 13,
            Fault::OtherText => 14,
        }
    }
}

// The meaning of the row in words.
impl fmt::Display for Fault {
    ghost output = { λ fault. Some (meaning fault) };

    fn fmt<W: fmt::Write>(&self, f: &mut fmt::Formatter<W>) -> fmt::Result {
        f.write_str(match self {
            Fault::DegreeOutside => "the degree of f is not 2 to 46",
            Fault::Divided => "a polynomial of smaller degree, other than 1, divides f",
            Fault::Strays => "squaring x as many times as the degree of f does not bring it back",
            Fault::TooLarge => {
                "a candidate element, coordinate number or range end has more bits than the degree"
            }
            Fault::NotNormal => "the element is not normal",
            Fault::NoRoom => "the buffer is shorter than the sheet or the text",
            Fault::BadLength => "the sheet's length is not 32 bytes times a count of 2 to 46",
            Fault::Misplaced => {
                "the record at this place does not fit in: its degree, its row number or its polynomial"
            }
            Fault::Oversized => {
                "the record at this place has a polynomial or a row with more bits than the degree"
            }
            Fault::Differs => {
                "the record at this place is not the one that the polynomial and the element give"
            }
            Fault::BadList => "the lists differ in length or have more than 4096 values",
            Fault::EmptyRange => "the first of the range is greater than the last",
            Fault::ZeroDivisor => "the divisor, or the number to invert, is zero",
            Fault::OtherText => "the text is not the one that the polynomial and the element give",
        })
    }
}
