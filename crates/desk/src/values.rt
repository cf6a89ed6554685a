// The values of a list as text, a line each.
ghost use Rattle.std.specs.Prelude.{◌≡◌, ◌+◌, ◌*◌, ◌≤◌, length};
ghost use Rattle.io.specs.Counts.{IsPrefixLen};

use super::lines::NEWLINE;
use super::output::Output;
use listing::{NUMBER_ROOM, put_bytes, put_number};
use sheet::LIST_LIMIT;
use streams::{Failure, Host};

// Room for the lines of the longest list.
const TEXT_ROOM: usize = LIST_LIMIT * NUMBER_ROOM;

// Zeros in a list's room. A function makes them, as the other large spaces, so that a proof has their number and not each of them.
pub(crate) fn list_space() -> [u64; LIST_LIMIT]
    ensures { 4096 ≡ length result }
{
    [0; LIST_LIMIT]
}

fn text_space() -> [u8; TEXT_ROOM]
    ensures { 86016 ≡ length result }
{
    [0; TEXT_ROOM]
}

// A value in hexadecimal and the end of its line, put at a place of the text.
fn put_hex(text: &mut [u8], at: usize, value: u64) -> usize
    requires { at + 21 ≤ length text.old }
    ensures { result ≤ at + 21 }
{
    let mut digits = [0u8; 16];
    let count = io::hex(value, 1, &mut digits);
    let first = put_bytes(text, at, b"0x");
    let end = put_bytes(text, first, &digits[..count]);
    text[end] = NEWLINE;
    end + 1
}

// A value and the end of its line, put at a place of the text.
fn put_line(text: &mut [u8], at: usize, value: u64, hex: bool) -> usize
    requires { at + 21 ≤ length text.old }
    ensures { result ≤ at + 21 }
{
    if hex {
        return put_hex(text, at, value);
    }
    put_number(text, at, value, NEWLINE)
}

// The lines of the values, put at the text's front; the result is their length. The place in the text stays a number, as in listing's
// put_number: a writer into the room would be no plainer, since it has an error to answer, which no line here can give.
fn put_lines(text: &mut [u8], values: &[u64], hex: bool) -> usize
    requires { 21 * length values.now ≤ length text.old }
    ensures { IsPrefixLen result text.new }
{
    let mut at: usize = 0;
    for value in values {
        at = put_line(text, at, *value, hex);
    }
    at
}

// Writes the values, a line each, in one piece.
pub(crate) fn put_values<H: Host>(output: &mut Output<'_, H>, values: &[u64]) -> Result<(), Failure>
    requires { length values.now ≤ 4096 }
{
    let mut text = text_space();
    let size = put_lines(&mut text, values, output.hex);
    output.put(&text[..size])
}
