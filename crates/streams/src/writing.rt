// Writing a text whole, and the line that says what could not be done.
ghost use Rattle.std.specs.Prelude.{◌≡◌, OnOk, IfErr};
ghost use Rattle.std.specs.Io.KnownBytes.{Appends};

use super::ending::Failure;
use super::surroundings::Host;
use std::fs::{File, OpenFile};
use std::io::{ErrorKind, Write};
use std::rt::Files;
use std::{fs, io};

// Standard output by the name that the system gives it.
const OUTPUT: &str = "/proc/self/fd/1";

// Room for what the system says of an error.
const REASON_ROOM: usize = 256;

// The system's own word for why. What std prints of an error has its number after that.
fn reason_in(text: &str) -> &str {
    text.split_once(" (os error ")
        .map_or(text, |(word, _)| word)
}

// The end of the line: why, and the line end.
fn say_reason<H: Host>(host: &H, why: &io::Error) {
    let mut space = [0u8; REASON_ROOM];
    let mut rest: &mut [u8] = &mut space;
    let _ = write!(rest, "{why}");
    let size = REASON_ROOM.saturating_sub(rest.len());
    let text = str::from_utf8(&space[..size]).unwrap_or("");
    let _ = host.say(reason_in(text).as_bytes());
    let _ = host.say(b"\n");
}

// A line on standard error: what could not be done, to what, and the system's own word for why. The run ends as failed, which is returned.
pub fn cannot<H: Host>(host: &H, what: &[u8], name: &[u8], why: &io::Error) -> Failure
    ensures { result ≡ Failure.Failed }
{
    for part in [
        b"desk: cannot ".as_slice(),
        what,
        b" ".as_slice(),
        name,
        b": ".as_slice(),
    ] {
        let _ = host.say(part);
    }
    say_reason(host, why);
    Failure::Failed
}

// Writes all of the text. If a write fails, a line says so.
pub fn write_whole<H: Host, W: Write>(
    host: &H,
    to: &mut W,
    name: &[u8],
    text: &[u8],
) -> Result<(), Failure>
    ensures whole { OnOk result (Appends (W.contents to.old) (W.contents to.new) text.now) }
    ensures failed { IfErr result (λ why. why ≡ Failure.Failed) }
{
    to.write_all(text)
        .map_err(|why| cannot(host, b"write", name, &why))
}

// Writes all of the text to standard output, as write_whole does.
pub fn write_output<H: Host>(host: &H, text: &[u8]) -> Result<(), Failure>
    ensures { IfErr result (λ why. why ≡ Failure.Failed) }
{
    write_whole(host, &mut io::writer(host), b"standard output", text)
}

// Has the system write what it still holds back of standard output. Only a regular file can be one that it holds something back of.
fn sync_output<F: Files>(files: &F) -> io::Result<()> {
    let Ok(there) = fs::metadata(files, OUTPUT) else {
        return Ok(());
    };
    if !there.is_file() {
        return Ok(());
    }
    let Ok(file) = File::open(files, OUTPUT) else {
        return Ok(());
    };
    match file.sync_data() {
        Err(why) if why.kind() == ErrorKind::InvalidInput => Ok(()),
        synced => synced,
    }
}

// Syncs standard output. If the system held something back that it now fails to write, a line says so.
pub fn finish_output<H: Host>(host: &H) -> Result<(), Failure>
    ensures { IfErr result (λ why. why ≡ Failure.Failed) }
{
    sync_output(host).map_err(|why| cannot(host, b"write", b"standard output", &why))
}
