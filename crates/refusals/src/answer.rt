// What the calls answer: Ok with a value, or with none, or the refusal. A refusal carries its row of the table and a place, and no value
// (document 01, "Refusal numbers").
ghost use Rattle.std.specs.Prelude.{◌≡◌, Some};
ghost use Rattle.refusals.specs.Verdicts.{refuse};
ghost use Rattle.refusals.specs.Answers.{refusal_at, checked_of};
ghost use Rattle.refusals.specs.Meanings.{refusal_text};

use super::fault::Fault;
use std::error::Error;
use std::fmt;

// A row of the refusal table, and the place of what is refused (0 where the table names none).
#[derive(Clone, Copy, Debug, PartialEq, Eq)]
pub struct Refusal {
    pub fault: Fault,
    pub place: usize,
}

// The number, the place and the meaning.
impl fmt::Display for Refusal {
    ghost output = { λ refusal. Some (refusal_text refusal) };

    fn fmt<W: fmt::Write>(&self, f: &mut fmt::Formatter<W>) -> fmt::Result {
        write!(f, "{} {}: {}", self.fault.number(), self.place, self.fault)
    }
}

impl Error for Refusal {}

// Of something that is no part of a list or a sheet.
impl From<Fault> for Refusal {
    ghost from_gives = { λ fault r. r ≡ refusal_at fault 0 };

    fn from(fault: Fault) -> Refusal {
        Refusal { fault, place: 0 }
    }
}

// A refusal of something that is no part of a list or a sheet, where a call's order finds it.
pub fn refused(fault: Fault) -> Result<(), Refusal>
    ensures { result ≡ checked_of (refuse fault 0) }
{
    refused_at(fault, 0)
}

// A refusal of what stands at a place of a list or a sheet.
pub fn refused_at(fault: Fault, place: usize) -> Result<(), Refusal>
    ensures { result ≡ checked_of (refuse fault place) }
{
    Err(Refusal { fault, place })
}
