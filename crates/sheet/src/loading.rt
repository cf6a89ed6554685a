// What other crates read of a sheet's bytes, as they stand: its polynomial, one record's rows, one column's rows.
ghost use Rattle.std.specs.Prelude.{◌≡◌, ◌+◌, ◌*◌, ◌≤◌, length};
ghost use Rattle.normal.specs.Normal.{padded};
ghost use Rattle.sheet.specs.Record.{record_size, word_size, polynomial_in, conjugate_in, inverse_in, table_in, rows_in};
ghost use Rattle.sheet.specs.Orders.{Shaped};

use super::layout::{CONJUGATE_AT, INVERSE_AT, RECORD, TABLE_AT, WORD, number_at};
use super::shaped::Sheet;
use gf2::LIMIT;

// Row i of each of the three matrices.
#[derive(Clone, Copy)]
pub struct Row {
    pub conjugate: u64,
    pub inverse: u64,
    pub table: u64,
}

// The rows in record i.
pub fn row_at(sheet: &[u8], i: usize) -> Row
    requires { record_size * i + record_size ≤ length sheet.now }
    ensures { result ≡ record { conjugate = conjugate_in sheet.now i; inverse = inverse_in sheet.now i; table = table_in sheet.now i } }
{
    let at = RECORD * i;
    Row {
        conjugate: number_at(sheet, at + CONJUGATE_AT, WORD),
        inverse: number_at(sheet, at + INVERSE_AT, WORD),
        table: number_at(sheet, at + TABLE_AT, WORD),
    }
}

// The polynomial that record 0 names.
pub fn polynomial_of(sheet: &[u8]) -> u64
    requires { Shaped sheet.now }
    ensures { result ≡ polynomial_in sheet.now }
{
    Sheet { bytes: sheet }.polynomial()
}

// The rows of the column at a place.
pub fn load_rows(sheet: &[u8], at: usize) -> [u64; LIMIT]
    requires { Shaped sheet.now × (at + word_size ≤ record_size) }
    ensures { result ≡ padded (rows_in sheet.now at) }
{
    Sheet { bytes: sheet }.rows(at)
}
