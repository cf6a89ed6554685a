// The file that --to names. The answer is written to a new file beside it, which is synced and takes its name when the command is done;
// otherwise the file stays as it was.
ghost use Rattle.std.specs.Prelude.{◌≤◌, length, IfOk};

use super::complaints::Errors;
use super::input::{is_dash, text_of};
use super::options::Given;
use super::output::{Output, Replacement};
use std::fs;
use std::fs::{OpenFile, OpenOptions};
use std::io::{Error, ErrorKind, Seek, SeekFrom, Write};
use streams::{Failure, Host, cannot, word_at};

// The longest path that a name beside it has room for.
const LONGEST: usize = 4000;

// Room for the name beside it.
const NAME_ROOM: usize = 4096;

// A number that another command hardly has too. If the system has none to give, it is 0, and a file of that name is still not taken.
fn chance<H: Host>(host: &H) -> u32 {
    let mut bytes = [0u8; 4];
    let _ = host.fill_bytes(&mut bytes);
    u32::from_be_bytes(bytes)
}

// The name of the new file, put at the front of the space: the path and a mark, so that no two commands write to the same one.
fn name_beside<'s>(path: &[u8], mark: u32, space: &'s mut [u8; NAME_ROOM]) -> Result<&'s str, Error>
    ensures { IfOk result (λ name. length name.now ≤ length space.old) }
{
    let mut rest: &mut [u8] = space;
    rest.write_all(path)?;
    write!(rest, ".desk-{mark}")?;
    let size = NAME_ROOM.saturating_sub(rest.len());
    text_of(&space[..size])
}

// Whether an open file is one of bytes: the reader can be placed past its first byte, as in no terminal, no pipe and no device such as
// /dev/null.
fn is_regular<F: Seek>(file: &mut F) -> bool {
    file.seek(SeekFrom::Start(1)).is_ok_and(|at| at == 1)
}

// Opens what is at a path, to be read and written and not changed by that.
fn open_update<H: Host>(host: &H, path: &[u8]) -> Result<H::File, Error> {
    OpenOptions::new()
        .read(true)
        .write(true)
        .open(host, text_of(path)?)
}

// The parts of a line on a path that is not written to, though the system would. Each is tried. The run ends as failed.
fn will_not<H: Host>(host: &H, parts: &[&[u8]]) -> Failure {
    for part in parts {
        let _ = Errors(host).bytes(part);
    }
    Failure::Failed
}

// Whether a path may be replaced: nothing is there, or a regular file that may be written. If not, a line says why.
fn may_replace<H: Host>(host: &H, path: &[u8]) -> Result<(), Failure> {
    match open_update(host, path) {
        Ok(mut file) => {
            if !is_regular(&mut file) {
                let parts = [
                    b"desk: cannot write ".as_slice(),
                    path,
                    b": it is no regular file\n".as_slice(),
                ];
                return Err(will_not(host, &parts));
            }
            Ok(())
        }
        Err(why) if why.kind() == ErrorKind::NotFound => Ok(()),
        Err(why) => Err(cannot(host, b"write", path, &why)),
    }
}

// Makes a file beside the path that is not there yet, open for writing.
fn create<H: Host>(host: &H, path: &[u8], mark: u32) -> Result<H::File, Error> {
    let mut space = io::buffer();
    OpenOptions::new()
        .write(true)
        .create_new(true)
        .open(host, name_beside(path, mark, &mut space)?)
}

// Whether a path names a link.
fn is_link<H: Host>(host: &H, path: &[u8]) -> bool {
    let Ok(text) = text_of(path) else {
        return false;
    };
    fs::symlink_metadata(host, text).is_ok_and(|there| there.is_symlink())
}

// A new file beside the one that word i names, open for writing. If there is none, a line has said so. A link stays: another name would
// take its place, and not that of the file that it leads to.
fn open_replaced<H: Host>(host: &H, place: usize) -> Result<Replacement<H::File>, Failure> {
    let mark = chance(host);
    let mut space = io::buffer();
    let path = word_at(host, place, &mut space);
    if path.is_empty() || path.len() > LONGEST {
        let line = b"desk: cannot write a path that is empty or has more than 4000 bytes\n";
        return Err(will_not(host, &[line.as_slice()]));
    }
    if is_link(host, path) {
        let line = b"desk: cannot write a link; name the file that it leads to\n";
        return Err(will_not(host, &[line.as_slice()]));
    }
    may_replace(host, path)?;
    match create(host, path, mark) {
        Ok(file) => Ok(Replacement { file, place, mark }),
        Err(why) => Err(cannot(host, b"write", path, &why)),
    }
}

// What answers are written to: the file that --to names, or standard output, which `-` stands for too. If it cannot be opened, a line says
// so.
pub(crate) fn open_output<'a, H: Host>(
    host: &'a H,
    given: &Given<'_>,
) -> Result<Output<'a, H>, Failure> {
    let replacement = match given.to {
        Some(place) if !is_dash(host, place) => Some(open_replaced(host, place)?),
        _ => None,
    };
    Ok(Output {
        host,
        replacement,
        hex: given.hex,
    })
}

// Syncs the new file, closes it and gives it the path's name.
fn rename<H: Host>(host: &H, file: H::File, name: &str, path: &[u8]) -> Result<(), Error> {
    file.sync_all()?;
    drop(file);
    fs::rename(host, name, text_of(path)?)
}

// The new file is whole: it takes the path's name.
fn keep<H: Host>(host: &H, replacement: Replacement<H::File>) -> Result<(), Failure> {
    let Replacement { file, place, mark } = replacement;
    let mut space = io::buffer();
    let path = word_at(host, place, &mut space);
    let mut beside = io::buffer();
    let name = match name_beside(path, mark, &mut beside) {
        Ok(name) => name,
        Err(why) => return Err(cannot(host, b"write", path, &why)),
    };
    match rename(host, file, name, path) {
        Ok(()) => Ok(()),
        Err(why) => {
            let failure = cannot(host, b"write", path, &why);
            let _ = fs::remove_file(host, name);
            Err(failure)
        }
    }
}

// The new file is not whole, and goes.
fn discard<H: Host>(host: &H, replacement: Replacement<H::File>) -> Result<(), Error> {
    let Replacement { file, place, mark } = replacement;
    let mut space = io::buffer();
    let mut beside = io::buffer();
    drop(file);
    let name = name_beside(word_at(host, place, &mut space), mark, &mut beside)?;
    fs::remove_file(host, name)
}

impl<H: Host> Output<'_, H> {
    // The end of a command that is done: what the system still held back is written now, or that fails.
    fn finish(self) -> Result<(), Failure> {
        let Output {
            host,
            replacement,
            hex: _,
        } = self;
        match replacement {
            Some(replacement) => keep(host, replacement),
            None => streams::finish_output(host),
        }
    }

    // The end of a command that is not done.
    fn give_up(self) {
        let Output {
            host,
            replacement,
            hex: _,
        } = self;
        if let Some(replacement) = replacement {
            let _ = discard(host, replacement);
        }
    }

    // Closes what answers were written to, and returns how the command ended in the end.
    pub(crate) fn close(self, ended: Result<(), Failure>) -> Result<(), Failure> {
        if ended.is_ok() {
            return self.finish();
        }
        self.give_up();
        ended
    }

    // The same for a command whose refusal is its answer: what it wrote is whole.
    pub(crate) fn close_answer(self, ended: Result<(), Failure>) -> Result<(), Failure> {
        if ended == Err(Failure::Refused) {
            self.finish()?;
            return ended;
        }
        self.close(ended)
    }
}
