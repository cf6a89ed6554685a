// Records written into a lent buffer.
ghost use Rattle.std.specs.Prelude.{◌≡◌, ◌+◌, ◌*◌, ◌≤◌, length};
ghost use Rattle.gf2.specs.Limit.{limit};
ghost use Rattle.sheet.specs.Record.{record_size, record_bytes, records_to};
ghost use Rattle.sheet.specs.Bytes.{pasted};

use super::layout::{
    BYTE, CONJUGATE_AT, DEGREE_AT, INVERSE_AT, RECORD, ROW_AT, TABLE_AT, TAIL, TAIL_AT, WORD,
    put_number,
};
use super::loading::Row;
use normal::Basis;

// Record i, which has row i of each matrix.
fn put_record(buffer: &mut [u8], n: u64, i: usize, tail: u64, row: Row)
    requires { record_size * i + record_size ≤ length buffer.old }
    ensures { buffer.new ≡ pasted buffer.old (record_size * i) (record_bytes n i tail row.conjugate row.inverse row.table) }
{
    let at = RECORD * i;
    put_number(buffer, at + DEGREE_AT, BYTE, n);
    put_number(buffer, at + ROW_AT, BYTE, i as u64);
    put_number(buffer, at + TAIL_AT, TAIL, tail);
    put_number(buffer, at + CONJUGATE_AT, WORD, row.conjugate);
    put_number(buffer, at + INVERSE_AT, WORD, row.inverse);
    put_number(buffer, at + TABLE_AT, WORD, row.table);
}

// The n records of a basis, at the buffer's front.
pub fn put_sheet(buffer: &mut [u8], n: usize, tail: u64, basis: Basis)
    requires { (n ≤ limit) × (record_size * n ≤ length buffer.old) }
    ensures { buffer.new ≡ pasted buffer.old 0 (records_to n n tail basis.conjugates basis.inverse basis.table) }
{
    for i in 0..n {
        let row = Row {
            conjugate: basis.conjugates[i],
            inverse: basis.inverse[i],
            table: basis.table[i],
        };
        put_record(buffer, n as u64, i, tail, row);
    }
}
