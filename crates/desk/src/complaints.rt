// Lines on words that cannot be used: which word, and what is expected. Each goes to standard error, and nothing else is written. A line
// that cannot be written leaves the exit status to say that a word is bad; a refusal's is tested.
use super::input::word_space;
use std::fmt;
use std::fmt::Write;
use streams::{Failure, Host};

// Standard error, to be written to. A word or a name that is shown there need not be text.
#[derive(Drop)]
pub(crate) struct Errors<'a, H>(pub(crate) &'a H);

impl<H: Host> Write for Errors<'_, H> {
    fn write_str(&mut self, text: &str) -> fmt::Result {
        self.bytes(text.as_bytes())
    }
}

impl<H: Host> Errors<'_, H> {
    pub(crate) fn bytes(&mut self, bytes: &[u8]) -> fmt::Result {
        self.0.say(bytes).map_err(|_| fmt::Error)
    }

    // A byte as it is, or its number in hexadecimal if a terminal would take it for a command.
    fn byte(&mut self, byte: u8) -> fmt::Result {
        match byte {
            0..=31 | 127 => write!(self, "\\x{byte:02x}"),
            _ => self.bytes(&[byte]),
        }
    }

    // A word between quotes.
    pub(crate) fn quoted(&mut self, word: &[u8]) -> fmt::Result {
        self.write_str("'")?;
        for byte in word {
            self.byte(*byte)?;
        }
        self.write_str("'")
    }

    // Word i, between quotes. One that is too long for the space is not shown.
    pub(crate) fn word(&mut self, i: usize) -> fmt::Result {
        let mut space = word_space();
        match self.0.arg(i, &mut space) {
            Ok(size) => self.quoted(&space[..size]),
            Err(_) => self.write_str("a word of more than 256 bytes"),
        }
    }

    // A part that cannot be written is left out, and the next one is still tried.
    fn bad_word(&mut self, i: usize, fault: Fault) -> fmt::Result {
        let _ = self.write_str("desk: ");
        let _ = self.word(i);
        write!(self, "{fault}")
    }
}

// What is wrong with a word of the command line: the rest of the line after the word.
#[derive(Clone, Copy)]
pub(crate) enum Fault {
    // It is no value; what is expected of one.
    NoValue(&'static str),
    // The command that it names was given too few or too many words; how it is called.
    WrongCount(&'static str),
    NoCommand,
    NoOption,
    // It is the last word, and an option that a file is to follow.
    NoFile,
    Twice,
}

impl fmt::Display for Fault {
    fn fmt<W: fmt::Write>(&self, f: &mut fmt::Formatter<W>) -> fmt::Result {
        match self {
            Fault::NoValue(expected) => write!(f, "{expected}"),
            Fault::WrongCount(usage) => {
                let _ = f.write_str(" was given too few or too many words; write: desk ");
                let _ = f.write_str(usage);
                f.write_str("\n")
            }
            Fault::NoCommand => write!(f, " is no command; desk help lists them\n"),
            Fault::NoOption => write!(f, " is no option; desk help lists them\n"),
            Fault::NoFile => write!(f, " needs a file after it\n"),
            Fault::Twice => write!(f, " was given twice\n"),
        }
    }
}

// Word i cannot be used.
pub(crate) fn bad_word<H: Host>(host: &H, i: usize, fault: Fault) -> Failure {
    let _ = Errors(host).bad_word(i, fault);
    Failure::BadWord
}

// The words cannot be used together: the line that says why, written in one piece.
pub(crate) fn bad_words<H: Host>(host: &H, line: &str) -> Failure {
    let _ = Errors(host).write_str(line);
    Failure::BadWord
}
