// What a program is run on.
use std::io;
use std::io::{IsTerminal, Print};
use std::random::RandomSource;
use std::rt::{Env, Files, HostRuntime};

// The words of the command line, files, random numbers and the three standard streams.
pub trait Host: Env + Files + Input + Print + RandomSource {
    // Writes all of the text to standard error, or fails. A word or a name that is shown there need not be UTF-8, so this takes bytes.
    fn say(&self, text: &[u8]) -> io::Result<()>;

    // Whether standard output is a terminal.
    fn shows_terminal(&self) -> bool;
}

impl Host for HostRuntime {
    fn say(&self, text: &[u8]) -> io::Result<()> {
        self.stderr().write_all(text)
    }

    fn shows_terminal(&self) -> bool {
        self.stdout().is_terminal()
    }
}
