// Refusals, told on standard error: the number, the place and the meaning in words.
use super::complaints::Errors;
use super::input::{Form, Polynomial, word_space};
use super::options::VALUES_AT;
use super::task::Task;
use gf2::degree_of;
use refusals::{Fault, Refusal};
use std::fmt;
use std::fmt::Write;
use streams::{Failure, Host, word_at};

// What a command ends with that is refused, if the line on it was written. One that could not be is no refusal that anybody was told of.
pub(crate) fn refused(told: fmt::Result) -> Failure {
    match told {
        Ok(()) => Failure::Refused,
        Err(why) => Failure::from(why),
    }
}

impl<H: Host> Errors<'_, H> {
    // The number and the place.
    pub(crate) fn begin(&mut self, fault: Fault, place: u64) -> fmt::Result {
        let number = fault.number();
        write!(self, "refused {number} {place}: ")
    }

    // The line on a refusal that no word of the command line stands behind. Refusal 14 has words of its own, in mismatch.rt.
    pub(crate) fn refusal(&mut self, refusal: Refusal) -> fmt::Result {
        writeln!(self, "refused {refusal}")
    }

    // The end of a line on a number that is too large: why, and what it must be.
    fn degree(&mut self, degree: u32) -> fmt::Result {
        writeln!(
            self,
            " has more bits than the degree, {degree}; it must be below 2^{degree}"
        )
    }
}

pub(crate) fn refuse<H: Host>(host: &H, refusal: Refusal) -> Failure {
    refused(Errors(host).refusal(refusal))
}

// Whether word i is a number with more bits than the degree.
fn exceeds<H: Host>(host: &H, i: usize, degree: u32) -> bool {
    let mut space = word_space();
    Polynomial::value_of(word_at(host, i, &mut space)).is_some_and(|number| degree_of(number)
        >= degree)
}

impl<H: Host> Task<'_, H> {
    // The place of the first value of the command line with more bits than the degree; that of the first value if there is none.
    fn first_exceeding(&self, degree: u32) -> usize {
        for place in self.places().iter().skip(VALUES_AT) {
            if exceeds(self.host(), *place, degree) {
                return *place;
            }
        }
        self.place(VALUES_AT)
    }

    // The line on a refusal of values that stand on the command line. One for a value that is too large names its word.
    pub(crate) fn say_refusal(&self, refusal: Refusal, degree: u32) -> fmt::Result {
        let mut errors = Errors(self.host());
        if refusal.fault != Fault::TooLarge {
            return errors.refusal(refusal);
        }
        errors.begin(refusal.fault, refusal.place as u64)?;
        errors.word(self.first_exceeding(degree))?;
        errors.degree(degree)
    }

    pub(crate) fn refuse(&self, refusal: Refusal, degree: u32) -> Failure {
        refused(self.say_refusal(refusal, degree))
    }
}

fn say_line<H: Host>(host: &H, place: u64, value: u64, degree: u32) -> fmt::Result {
    let mut errors = Errors(host);
    let line = place.wrapping_add(1);
    errors.begin(Fault::TooLarge, place)?;
    write!(errors, "line {line}: {value}")?;
    errors.degree(degree)
}

// The refusal of coordinates that came by line and are too large. Their place in the list of all values counts from 0, their line from 1.
pub(crate) fn refuse_line<H: Host>(host: &H, place: u64, value: u64, degree: u32) -> Failure {
    refused(say_line(host, place, value, degree))
}
