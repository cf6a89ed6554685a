// Values that come one a line, any number of them, converted through a sheet in lists of 4,096. A line that is no value, or has
// coordinates that are too large, ends the command; what stands before it is converted and written.
ghost use Rattle.std.specs.Prelude.{◌≤◌, length};
ghost use Rattle.io.specs.Counts.{IsPrefixLen};

use super::complaints::Errors;
use super::converting::Conversion;
use super::input::{Form, degree_named};
use super::lines::{Lines, Stop};
use super::output::Output;
use super::refusing::{refuse, refuse_line};
use super::values::{list_space, put_values};
use refusals::{Fault, Refusal};
use std::fmt;
use std::fmt::Write;
use std::io::Read;
use streams::{Failure, Host};

// No input has more lists.
const MOST: u64 = u64::MAX;

// The next values of the input, as many as a list has room for or as were read: how many there are, and why there are no more. So each
// line that is typed is answered at once.
fn fill<F: Form, H: Host, R: Read>(lines: &mut Lines<'_, H, R>, values: &mut [u64]) -> (usize, Stop)
    ensures { IsPrefixLen result.0 values.new }
{
    for count in 0..values.len() {
        if count > 0 && lines.is_spent() {
            return (count, Stop::Full);
        }
        match lines.next_value::<F>() {
            Ok(value) => values[count] = value,
            Err(stop) => return (count, stop),
        }
    }
    (values.len(), Stop::Full)
}

// Values that are carried through a sheet: its bytes, the values of one list, and how many there were in the lists before it.
#[derive(Clone, Copy)]
struct Part<'a> {
    bytes: &'a [u8],
    values: &'a [u64],
    before: u64,
}

impl Part<'_> {
    // The values before a place, converted and written.
    fn put_before<C: Conversion, H: Host>(
        self,
        place: usize,
        output: &mut Output<'_, H>,
    ) -> Result<(), Failure>
        requires { length self.values.now ≤ 4096 }
    {
        let mut space = list_space();
        let values = self.values.get(..place).unwrap_or(self.values);
        let into = &mut space[..values.len()];
        let _ = C::convert(self.bytes, values, into);
        put_values(output, into)
    }

    // A refused list. The values before coordinates that are too large are converted and written.
    fn refuse<C: Conversion, H: Host>(
        self,
        refusal: Refusal,
        output: &mut Output<'_, H>,
    ) -> Result<(), Failure>
        requires { length self.values.now ≤ 4096 }
    {
        let place = refusal.place;
        match self.values.get(place) {
            Some(value) if refusal.fault == Fault::TooLarge => {
                self.put_before::<C, H>(place, output)?;
                let index = self.before.wrapping_add(place as u64);
                Err(refuse_line(output.host, index, *value, degree_named(self.bytes)))
            }
            _ => Err(refuse(output.host, refusal)),
        }
    }

    // The values, converted and written.
    fn put<C: Conversion, H: Host>(self, output: &mut Output<'_, H>) -> Result<(), Failure>
        requires { length self.values.now ≤ 4096 }
    {
        let mut space = list_space();
        let into = &mut space[..self.values.len()];
        match C::convert(self.bytes, self.values, into) {
            Ok(()) => put_values(output, into),
            Err(refusal) => self.refuse::<C, H>(refusal, output),
        }
    }
}

// The next list of the input, converted and written. The result is why it has no more values.
fn next_part<C: Conversion, H: Host, R: Read>(
    bytes: &[u8],
    lines: &mut Lines<'_, H, R>,
    output: &mut Output<'_, H>,
) -> Result<Stop, Failure> {
    let before = lines.count();
    let mut space = list_space();
    let (count, stop) = fill::<C::From, H, R>(lines, &mut space);
    let part = Part {
        bytes,
        values: &space[..count],
        before,
    };
    part.put::<C, H>(output)?;
    Ok(stop)
}

// What is said of the last line that was read, if it has no value. As with a word of the command line, each part is tried.
fn say_line<F: Form, H: Host, R: Read>(
    host: &H,
    lines: &Lines<'_, H, R>,
    is_long: bool,
) -> fmt::Result {
    let mut errors = Errors(host);
    let count = lines.count();
    let _ = errors.write_str("desk: line ");
    let _ = write!(errors, "{count}");
    let _ = errors.write_str(": ");
    let _ = if is_long {
        errors.write_str("a word of more than 256 bytes")
    } else {
        errors.quoted(lines.word())
    };
    errors.write_str(F::EXPECTED)
}

// How the command ends when the values of the last list are written.
fn end<F: Form, H: Host, R: Read>(
    host: &H,
    lines: &Lines<'_, H, R>,
    stop: Stop,
) -> Result<(), Failure> {
    match stop {
        Stop::Full | Stop::End => Ok(()),
        Stop::Failed(failure) => Err(failure),
        Stop::Unclear | Stop::Long => {
            let _ = say_line::<F, H, R>(host, lines, stop == Stop::Long);
            Err(Failure::BadWord)
        }
    }
}

// Converts the values of an open input, list by list.
pub(crate) fn convert_input<C: Conversion, H: Host, R: Read>(
    bytes: &[u8],
    lines: &mut Lines<'_, H, R>,
    output: &mut Output<'_, H>,
) -> Result<(), Failure> {
    for _ in 0..MOST {
        let stop = next_part::<C, H, R>(bytes, lines, output)?;
        if stop != Stop::Full {
            return end::<C::From, H, R>(output.host, lines, stop);
        }
    }
    Err(Failure::Failed)
}
