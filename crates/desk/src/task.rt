// A command at work.
ghost use Rattle.std.specs.Prelude.{◌≤◌, length, IfOk};

use super::complaints::{Fault, bad_word};
use super::input::{Form, read_input, read_values};
use super::options::Given;
use super::output::Output;
use streams::{Failure, Host};

// What a command was given, and where its answer goes.
pub(crate) struct Task<'a, H: Host> {
    pub(crate) given: Given<'a>,
    pub(crate) output: Output<'a, H>,
}

impl<'a, H: Host> Task<'a, H> {
    pub(crate) fn host(&self) -> &'a H {
        self.output.host
    }

    // The places of the command's words, its name first.
    pub(crate) fn places(&self) -> &[usize] {
        self.given.words.places()
    }

    // The place of word i of the command; one that was not given has the program's name.
    pub(crate) fn place(&self, i: usize) -> usize {
        self.places().get(i).copied().unwrap_or(0)
    }

    // The command was given too few or too many words.
    pub(crate) fn wrong_count(&self, usage: &'static str) -> Failure {
        bad_word(self.host(), self.place(0), Fault::WrongCount(usage))
    }

    // Whether the command has so many words, its name among them. If not, a line says so.
    pub(crate) fn have(&self, count: usize, usage: &'static str) -> Result<(), Failure> {
        if self.places().len() != count {
            return Err(self.wrong_count(usage));
        }
        Ok(())
    }

    // The values of the words from word `first` on.
    pub(crate) fn values<F: Form, const N: usize>(
        &self,
        first: usize,
    ) -> Result<[u64; N], Failure> {
        let mut values = [0; N];
        let places = self.places().get(first..).unwrap_or(&[]);
        read_values::<F, H>(self.host(), places, &mut values)?;
        Ok(values)
    }

    // What the input that word 1 names has.
    pub(crate) fn read_sheet<'s>(&self, space: &'s mut [u8]) -> Result<&'s [u8], Failure>
        ensures { IfOk result (λ bytes. length bytes.now ≤ length space.old) }
    {
        read_input(self.host(), self.place(1), space)
    }
}
