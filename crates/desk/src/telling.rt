// The cause of a refusal (document 02, §5): alone, on a line after the words, and in the sentence that `desk why` answers.
ghost use Rattle.sheet.specs.Orders.{Shaped};

use super::complaints::Errors;
use super::output::Output;
use super::refusing::refused;
use super::task::Task;
use causes::{Cause, Difference, Field, is_of_shape};
use gf2::degree_of;
use listing::{CAUSE_ROOM, put_cause};
use refusals::Refusal;
use sheet::{polynomial_of, row_at};
use std::fmt;
use std::fmt::Write;
use streams::{Failure, Host};

impl<H: Host> Errors<'_, H> {
    // The cause alone, as the lister prints it; nothing if the number and the place say all.
    fn cause(&mut self, cause: Cause) -> fmt::Result {
        let mut line = [0u8; CAUSE_ROOM];
        let size = put_cause(&mut line, 0, cause);
        self.bytes(&line[..size])
    }

    fn refusal_for(&mut self, refusal: Refusal, cause: Cause) -> fmt::Result {
        self.refusal(refusal)?;
        self.cause(cause)
    }
}

// A refusal and its cause.
pub(crate) fn refuse_for<H: Host>(host: &H, refusal: Refusal, cause: Cause) -> Failure {
    refused(Errors(host).refusal_for(refusal, cause))
}

impl<H: Host> Task<'_, H> {
    fn say_refusal_for(&self, refusal: Refusal, degree: u32, cause: Cause) -> fmt::Result {
        self.say_refusal(refusal, degree)?;
        Errors(self.host()).cause(cause)
    }

    // The same for values that stand on the command line.
    pub(crate) fn refuse_for(&self, refusal: Refusal, degree: u32, cause: Cause) -> Failure {
        refused(self.say_refusal_for(refusal, degree, cause))
    }
}

// The polynomial and the element that a sheet names.
#[derive(Clone, Copy)]
struct Named {
    f: u64,
    element: u64,
}

// What record 0 of a sheet of good shape names.
fn names_of(bytes: &[u8]) -> Named
    requires { Shaped bytes.now }
{
    let row = row_at(bytes, 0);
    Named {
        f: polynomial_of(bytes),
        element: row.conjugate,
    }
}

// The same of any sheet. One that is refused for its shape names nothing that a sentence could speak of.
fn names_in(bytes: &[u8]) -> Result<Named, Refusal> {
    match sheet::read(bytes) {
        Err(refusal) => {
            if is_of_shape(refusal.fault.number()) {
                return Err(refusal);
            }
            Ok(names_of(bytes))
        }
        Ok(_) => Ok(names_of(bytes)),
    }
}

// f and the element, after what stands before them.
fn put_names<H: Host>(output: &mut Output<'_, H>, before: &str, named: Named) -> fmt::Result {
    let f = output.shown(named.f);
    let element = output.shown(named.element);
    write!(output, "{before} f = {f} and the element {element}")
}

fn put_divisor<H: Host>(output: &mut Output<'_, H>, named: Named, divisor: u64) -> fmt::Result {
    let divisor = output.shown(divisor);
    let f = output.shown(named.f);
    write!(output, "the polynomial {divisor} divides f = {f}")?;
    output.write_str(", and no smaller one of degree 1 or more does")
}

fn put_became<H: Host>(output: &mut Output<'_, H>, named: Named, element: u64) -> fmt::Result {
    let degree = degree_of(named.f);
    let f = output.shown(named.f);
    let element = output.shown(element);
    write!(
        output,
        "x squared {degree} times modulo f = {f} is {element}, and not x again"
    )
}

fn put_dependency<H: Host>(output: &mut Output<'_, H>, named: Named, set: u64) -> fmt::Result {
    let set = output.shown(set);
    let element = output.shown(named.element);
    write!(
        output,
        "the set bits of {set} select conjugates of the element {element}"
    )?;
    output.write_str(" that sum to zero, and those of no smaller number above 0 do")
}

fn name_of(field: Field) -> &'static str {
    match field {
        Field::Conjugate => "conjugate",
        Field::Inverse => "inverse",
        Field::Table => "table",
    }
}

fn put_difference<H: Host>(
    output: &mut Output<'_, H>,
    named: Named,
    difference: Difference,
) -> fmt::Result {
    let place = difference.place;
    let field = name_of(difference.field);
    let stored = output.shown(difference.stored);
    let right = output.shown(difference.right);
    write!(output, "record {place} has the {field} row {stored}")?;
    put_names(output, ", but", named)?;
    write!(output, " give {right}; no row before it differs")
}

// The cause in words. One whose number and place say all has the meaning that every refusal has.
fn put_reason<H: Host>(output: &mut Output<'_, H>, named: Named, cause: Cause) -> fmt::Result {
    match cause {
        Cause::Accepted => {
            put_names(output, "the sheet is the one that", named)?;
            output.write_str(" give")
        }
        Cause::Refused(refusal) => write!(output, "{}", refusal.fault),
        Cause::Divisor(divisor) => put_divisor(output, named, divisor),
        Cause::Became(element) => put_became(output, named, element),
        Cause::Dependency(set) => put_dependency(output, named, set),
        Cause::Differs(difference) => put_difference(output, named, difference),
    }
}

fn put_sentence<H: Host>(output: &mut Output<'_, H>, bytes: &[u8]) -> fmt::Result {
    match names_in(bytes) {
        Ok(named) => put_reason(output, named, causes::why(bytes))?,
        Err(refusal) => write!(output, "{}", refusal.fault)?,
    }
    output.write_str("\n")
}

// Why reading refuses a sheet, or that it accepts it, in one sentence.
pub(crate) fn answer_why<H: Host>(output: &mut Output<'_, H>, bytes: &[u8]) -> Result<(), Failure> {
    match sheet::read(bytes) {
        Err(refusal) => {
            let number = refusal.fault.number();
            let place = refusal.place;
            write!(output, "refused {number} {place}: ")?;
            put_sentence(output, bytes)?;
            Err(Failure::Refused)
        }
        Ok(_) => {
            output.put(b"accepted: ")?;
            put_sentence(output, bytes)?;
            Ok(())
        }
    }
}
