// The sheet file's layout, and its little-endian numbers (document 01, "Sheet file").
ghost use Rattle.std.specs.Prelude.{◌≡◌, ◌+◌, ◌≤◌, length, take, drop};
ghost use Rattle.sheet.specs.Record.{number_in, bytes_of};
ghost use Rattle.sheet.specs.Bytes.{pasted};

pub const RECORD: usize = 32;

pub const DEGREE_AT: usize = 0;

pub const ROW_AT: usize = 1;

pub const TAIL_AT: usize = 2;

pub const CONJUGATE_AT: usize = 8;

pub const INVERSE_AT: usize = 16;

pub const TABLE_AT: usize = 24;

pub const BYTE: usize = 1;

pub const TAIL: usize = 6;

pub const WORD: usize = 8;

// The number in the bytes of sheet from at on, size of them: the highest first.
pub fn number_at(sheet: &[u8], at: usize, size: usize) -> u64
    requires { (at + size ≤ length sheet.now) × (size ≤ 8) }
    ensures { result ≡ number_in (take size (drop at sheet.now)) }
{
    let mut bytes = [0u8; WORD];
    bytes[..size].copy_from_slice(&sheet[at..at + size]);
    u64::from_le_bytes(bytes)
}

// The lowest size bytes of number, written at a place of the buffer. The size is any, as the promise says, and so more than `to_le_bytes` has.
pub fn put_number(buffer: &mut [u8], at: usize, size: usize, number: u64)
    requires { at + size ≤ length buffer.old }
    ensures { buffer.new ≡ pasted buffer.old at (bytes_of size number) }
{
    let mut rest = number;
    for byte in buffer[at..at + size].iter_mut() {
        *byte = (rest % 256) as u8;
        rest = rest / 256;
    }
}
