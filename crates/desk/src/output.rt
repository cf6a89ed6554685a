// Where answers go: standard output, or the file that --to names. Every write is tested, and one that fails has said so.
use std::fmt;
use streams::{Failure, Host, word_at, write_output, write_whole};

// A new file that is to replace the one that a word of the command line names: the word's place, and the mark in the new file's name.
pub(crate) struct Replacement<F> {
    pub(crate) file: F,
    pub(crate) place: usize,
    pub(crate) mark: u32,
}

// What the command is run on; what answers are written to, none for standard output; whether values are written in hexadecimal. An output
// is closed by replacing.rt: it cannot be let go.
pub(crate) struct Output<'a, H: Host> {
    pub(crate) host: &'a H,
    pub(crate) replacement: Option<Replacement<H::File>>,
    pub(crate) hex: bool,
}

// A polynomial, an element or coordinates: in decimal, or in hexadecimal if that is asked for.
#[derive(Clone, Copy)]
pub(crate) struct Shown {
    value: u64,
    hex: bool,
}

impl fmt::Display for Shown {
    fn fmt<W: fmt::Write>(&self, f: &mut fmt::Formatter<W>) -> fmt::Result {
        let value = self.value;
        if self.hex {
            write!(f, "{value:#x}")
        } else {
            write!(f, "{value}")
        }
    }
}

impl<H: Host> Output<'_, H> {
    // Writes the bytes.
    pub(crate) fn put(&mut self, bytes: &[u8]) -> Result<(), Failure> {
        let Some(replacement) = &mut self.replacement else {
            return write_output(self.host, bytes);
        };
        let mut path = io::buffer();
        let name = word_at(self.host, replacement.place, &mut path);
        write_whole(self.host, &mut replacement.file, name, bytes)
    }

    // How a value is shown.
    pub(crate) fn shown(&self, value: u64) -> Shown {
        Shown {
            value,
            hex: self.hex,
        }
    }

    // Whether answers go to a terminal. A file that --to names is none.
    pub(crate) fn is_terminal(&self) -> bool {
        self.replacement.is_none() && self.host.shows_terminal()
    }
}

impl<H: Host> fmt::Write for Output<'_, H> {
    fn write_str(&mut self, text: &str) -> fmt::Result {
        self.put(text.as_bytes()).map_err(|_| fmt::Error)
    }
}
