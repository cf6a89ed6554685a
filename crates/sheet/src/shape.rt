// The shape of a sheet: refusals 7, and 8 before 9 record by record.
ghost use Rattle.std.specs.Prelude.{◌≡◌, ◌+◌, ◌*◌, ◌≤◌, length};
ghost use Rattle.gf2.specs.Limit.{limit};
ghost use Rattle.refusals.specs.Verdicts.{first_of};
ghost use Rattle.refusals.specs.Answers.{checked_of};
ghost use Rattle.sheet.specs.Record.{record_size, record_count, tail_in};
ghost use Rattle.sheet.specs.Orders.{bad_length, misplaced, oversized, shape_order};

use super::layout::{
    BYTE, CONJUGATE_AT, DEGREE_AT, INVERSE_AT, RECORD, ROW_AT, TABLE_AT, TAIL, TAIL_AT, WORD,
    number_at,
};
use field::too_large;
use gf2::LIMIT;
use refusals::{Fault, Refusal, refused, refused_at};

// Refusal 7: the length is not 32 times a count of 2 to 46.
fn bad_length(size: usize) -> bool
    ensures { result ≡ bad_length size }
{
    if size % RECORD != 0 {
        return true;
    }
    let count = size / RECORD;
    count < 2 || LIMIT < count
}

// Refusal 8 at record i: another degree than the record count n, another row number, or another polynomial than record 0's.
fn is_misplaced(sheet: &[u8], n: usize, i: usize, tail: u64) -> bool
    requires { (n ≡ record_count sheet.now) × (record_size * i + record_size ≤ length sheet.now) × (tail ≡ tail_in sheet.now 0) }
    ensures { result ≡ misplaced sheet.now i }
{
    let at = RECORD * i;
    if number_at(sheet, at + DEGREE_AT, BYTE) != n as u64 {
        return true;
    }
    if number_at(sheet, at + ROW_AT, BYTE) != i as u64 {
        return true;
    }
    number_at(sheet, at + TAIL_AT, TAIL) != tail
}

// Refusal 9 at record i: the polynomial or a row has a bit from n upward.
fn is_oversized(sheet: &[u8], n: usize, i: usize) -> bool
    requires { (n ≡ record_count sheet.now) × (n ≤ limit) × (record_size * i + record_size ≤ length sheet.now) }
    ensures { result ≡ oversized sheet.now i }
{
    let at = RECORD * i;
    let bits = n as u32;
    if too_large(bits, number_at(sheet, at + TAIL_AT, TAIL)) {
        return true;
    }
    if too_large(bits, number_at(sheet, at + CONJUGATE_AT, WORD)) {
        return true;
    }
    if too_large(bits, number_at(sheet, at + INVERSE_AT, WORD)) {
        return true;
    }
    too_large(bits, number_at(sheet, at + TABLE_AT, WORD))
}

// 7, then records from 0 upward with 8 before 9 in each.
pub fn shape_verdict(sheet: &[u8]) -> Result<(), Refusal>
    ensures { result ≡ checked_of (first_of (shape_order sheet.now)) }
{
    if bad_length(sheet.len()) {
        return refused(Fault::BadLength);
    }
    let n = sheet.len() / RECORD;
    let tail = number_at(sheet, TAIL_AT, TAIL);
    for i in 0..n {
        if is_misplaced(sheet, n, i, tail) {
            return refused_at(Fault::Misplaced, i);
        }
        if is_oversized(sheet, n, i) {
            return refused_at(Fault::Oversized, i);
        }
    }
    Ok(())
}
