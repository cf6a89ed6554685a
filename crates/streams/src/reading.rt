// Reading an input to its end.
ghost use Rattle.std.specs.Prelude.{◌<◌, length, take, IfOk};
ghost use Rattle.std.specs.Io.{ReadsAtMost};
ghost use Rattle.std.specs.Io.KnownBytes.{Consumes, IsAtEnd};

use std::io;
use std::io::Read;

// Reads until the buffer is full or the input ends, and returns how many bytes it put at the buffer's front: those that the input gave. If
// there is room left, no byte of the input is.
pub fn read_whole<R: Read>(input: &mut R, buffer: &mut [u8]) -> io::Result<usize>
    ensures counts { ReadsAtMost result buffer.new }
    ensures bytes { IfOk result (λ size. Consumes (R.remaining input.old) (R.remaining input.new) (take size buffer.new)) }
    ensures end { IfOk result (λ size. size < length buffer.new → IsAtEnd (R.remaining input.new)) }
{
    // How much a read gives is known after it, so no range has the places; and std's reader of a whole input puts it on the heap.
    let mut done: usize = 0;
    while done < buffer.len() {
        let more = input.read(&mut buffer[done..])?;
        if more == 0 {
            return Ok(done);
        }
        done += more;
    }
    Ok(done)
}
