// How a run ended, told to whoever started the program.
ghost use Rattle.std.specs.Prelude.{◌≡◌, IsOk, IsErrOf};
ghost use Rattle.streams.specs.declared.ending.Failure.TheVariants.{Refused, BadWord, Failed};

use std::fs::OpenOptions;
use std::io::Write;
use std::os::unix::fs::PermissionsExt;
use std::rt::Files;
use std::{fmt, fs, io};

// Why a run does not end well: what was asked for is refused; a word of the command line cannot be used; something could not be read or
// written.
#[derive(Clone, Copy, Debug, PartialEq, Eq)]
pub enum Failure {
    Refused,
    BadWord,
    Failed,
}

// A writer of text says itself why it failed, where there is anybody to tell.
impl From<fmt::Error> for Failure {
    ghost from_gives = { λ _ e. e ≡ Failed };

    fn from(_why: fmt::Error) -> Failure {
        Failure::Failed
    }
}

// Done; or why not. The numbers are the exit status that the script `desk` makes of them.
#[derive(Clone, Copy, Debug, PartialEq, Eq)]
pub enum Ending {
    Done = 0,
    Refused = 1,
    BadWord = 2,
    Failed = 3,
}

impl From<Result<(), Failure>> for Ending {
    ghost use Rattle.streams.specs.declared.ending.Ending.{Ending};

    ghost from_gives = { λ ended e.
        (IsOk ended → e ≡ Ending.Done)
        × (IsErrOf ended Refused → e ≡ Ending.Refused)
        × (IsErrOf ended BadWord → e ≡ Ending.BadWord)
        × (IsErrOf ended Failed → e ≡ Ending.Failed) };

    fn from(ended: Result<(), Failure>) -> Ending {
        match ended {
            Ok(()) => Ending::Done,
            Err(Failure::Refused) => Ending::Refused,
            Err(Failure::BadWord) => Ending::BadWord,
            Err(Failure::Failed) => Ending::Failed,
        }
    }
}

// What the ending goes to: descriptor 3, by the name that the system gives it. Whoever starts the program opens it, and takes no byte
// there for a run that did not come to its end.
const CHANNEL: &str = "/proc/self/fd/3";

// Set in the permissions that the system shows of a descriptor's name if the descriptor is open for writing.
const WRITABLE: u32 = 0o200;

// Whether descriptor 3 is open for writing. A file that is open there to be read alone is none to be written to by its name.
fn is_listening<F: Files>(files: &F) -> bool {
    fs::symlink_metadata(files, CHANNEL).is_ok_and(|there| there.permissions().mode() & WRITABLE
        != 0)
}

fn tell<F: Files>(files: &F, byte: u8) -> io::Result<()> {
    let mut channel = OpenOptions::new().append(true).open(files, CHANNEL)?;
    channel.write_all(&[byte])
}

// Tells how the run ended, by one byte. Nobody may be listening, so it does not matter whether it arrives.
pub fn end<F: Files>(files: &F, ending: Ending) {
    if is_listening(files) {
        let _ = tell(files, b'0' + ending as u8);
    }
}
