// Lines of an input, one at a time. A line is a word; its end is byte 10, or the end of the input.
ghost use Rattle.std.specs.Prelude.{◌≡◌, ◌≤◌, length};

use super::input::{Form, WORD_ROOM};
use std::io::Read;
use streams::{Failure, Host, cannot};

// As much of the input as is read at once.
const CHUNK: usize = 65536;

pub(crate) const NEWLINE: u8 = 10;

// A line's room: that of a word, and one byte by which a longer line shows.
const LINE_ROOM: usize = WORD_ROOM + 1;

fn line_space() -> [u8; LINE_ROOM]
    ensures { 257 ≡ length result }
{
    [0; LINE_ROOM]
}

// Why there is no further value: the list of values is full, or the next line would have to be waited for; the input has ended; the last
// line is no value; it is too long; a read failed.
#[derive(Clone, Copy, Debug, PartialEq, Eq)]
pub(crate) enum Stop {
    Full,
    End,
    Unclear,
    Long,
    Failed(Failure),
}

// An open input, and what it is called if a read fails; what was read of it at once, the place of the next byte there and that of its
// end; the last line's word; and how many lines were read.
#[derive(Drop)]
pub(crate) struct Lines<'a, H, R> {
    host: &'a H,
    input: &'a mut R,
    name: &'a [u8],
    chunk: [u8; CHUNK],
    next: usize,
    end: usize,
    space: [u8; LINE_ROOM],
    size: usize,
    count: u64,
    ghost is_read: { end ≤ 65536 },
    ghost is_word: { size ≤ 257 },
}

impl<'a, H: Host, R: Read> Lines<'a, H, R> {
    pub(crate) fn new(host: &'a H, input: &'a mut R, name: &'a [u8]) -> Self {
        Lines {
            host,
            input,
            name,
            chunk: io::large_buffer(),
            next: 0,
            end: 0,
            space: line_space(),
            size: 0,
            count: 0,
        }
    }

    // How many lines were read. No input has as many as there is room for.
    pub(crate) fn count(&self) -> u64 {
        self.count
    }

    // The word of the line that was read last.
    pub(crate) fn word(&self) -> &[u8] {
        &self.space[..self.size]
    }

    // Whether another line would have to be waited for.
    pub(crate) fn is_spent(&self) -> bool {
        self.next >= self.end
    }

    // Reads the next bytes, if all were taken. If that fails, a line says so.
    fn fill(&mut self) -> Result<(), Stop> {
        if !self.is_spent() {
            return Ok(());
        }
        self.next = 0;
        self.end = 0;
        match self.input.read(&mut self.chunk) {
            Ok(size) => self.end = size,
            Err(why) => return Err(Stop::Failed(cannot(self.host, b"read", self.name, &why))),
        }
        Ok(())
    }

    // The next byte; none at the end of the input.
    fn next_byte(&mut self) -> Result<Option<u8>, Stop> {
        self.fill()?;
        if self.next >= self.end {
            return Ok(None);
        }
        let byte = self.chunk[self.next];
        self.next += 1;
        Ok(Some(byte))
    }

    // Reads the next line. A last line without its byte 10 is whole.
    fn next_line(&mut self) -> Result<(), Stop> {
        self.count = self.count.wrapping_add(1);
        for size in 0..LINE_ROOM {
            self.size = size;
            match self.next_byte()? {
                None if size == 0 => return Err(Stop::End),
                None | Some(NEWLINE) => return Ok(()),
                Some(byte) => self.space[size] = byte,
            }
        }
        Err(Stop::Long)
    }

    // The value of the next line.
    pub(crate) fn next_value<F: Form>(&mut self) -> Result<u64, Stop> {
        self.next_line()?;
        F::value_of(self.word()).ok_or(Stop::Unclear)
    }
}
