// The seventeen calls. Each takes any numbers and lent memory, and its promise gives every number that it hands out and the final state of
// what it may write.
ghost use Rattle.std.specs.Prelude.{◌≡◌, length};
ghost use Rattle.field.specs.Answers.{check_report, multiply_report, square_report, trace_report};
ghost use Rattle.sheet.specs.Answers.{build_report, built_buffer, read_report, polynomial_report, normal_report, times_report, inverse_report, quotient_report, polynomial_list_report, polynomial_list, normal_list_report, normal_list};
ghost use Rattle.causes.specs.Causes.{why_report};
ghost use Rattle.matrices.specs.Answers.{write_text_report, written_text, read_text_report};
ghost use Rattle.search.specs.Answers.{search_answer, search_report};
ghost use Rattle.capi.specs.Answers.{desk_value, desk_issued, desk_found, desk_cause, found_flag};

use super::answer::{DeskCause, DeskFound, DeskIssued, DeskValue};

// Whether f is accepted. Its value is 0: there is none.
#[unsafe(no_mangle)]
pub extern "C" fn desk_check(f: u64) -> DeskValue
    ensures { result ≡ desk_value (check_report f) }
{
    DeskValue::from(field::check(f))
}

// a times b modulo f.
#[unsafe(no_mangle)]
pub extern "C" fn desk_multiply(f: u64, a: u64, b: u64) -> DeskValue
    ensures { result ≡ desk_value (multiply_report f a b) }
{
    DeskValue::from(field::multiply(f, a, b))
}

// a times a modulo f.
#[unsafe(no_mangle)]
pub extern "C" fn desk_square(f: u64, a: u64) -> DeskValue
    ensures { result ≡ desk_value (square_report f a) }
{
    DeskValue::from(field::square(f, a))
}

// The trace of a.
#[unsafe(no_mangle)]
pub extern "C" fn desk_trace(f: u64, a: u64) -> DeskValue
    ensures { result ≡ desk_value (trace_report f a) }
{
    DeskValue::from(field::trace(f, a))
}

// The sheet of f and the element, at the buffer's front.
#[unsafe(no_mangle)]
pub extern "C" fn desk_build(f: u64, element: u64, buffer: &mut [u8]) -> DeskIssued
    ensures answer { result ≡ desk_issued (build_report f element (length buffer.old)) }
    ensures written { buffer.new ≡ built_buffer f element buffer.old }
{
    DeskIssued::from(sheet::build(f, element, buffer))
}

// Whether the sheet is one that build writes.
#[unsafe(no_mangle)]
pub extern "C" fn desk_read(sheet: &[u8]) -> DeskIssued
    ensures { result ≡ desk_issued (read_report sheet.now) }
{
    DeskIssued::from(sheet::read(sheet))
}

// The element that normal coordinates stand for.
#[unsafe(no_mangle)]
pub extern "C" fn desk_to_polynomial(sheet: &[u8], coordinates: u64) -> DeskValue
    ensures { result ≡ desk_value (polynomial_report sheet.now coordinates) }
{
    DeskValue::from(sheet::to_polynomial(sheet, coordinates))
}

// The normal coordinates of an element.
#[unsafe(no_mangle)]
pub extern "C" fn desk_to_normal(sheet: &[u8], element: u64) -> DeskValue
    ensures { result ≡ desk_value (normal_report sheet.now element) }
{
    DeskValue::from(sheet::to_normal(sheet, element))
}

// The elements that a list of normal coordinates stands for.
#[unsafe(no_mangle)]
pub extern "C" fn desk_list_to_polynomial(sheet: &[u8], from: &[u64], into: &mut [u64]) -> DeskValue
    ensures answer { result ≡ desk_value (polynomial_list_report sheet.now from.now (length into.old)) }
    ensures written { into.new ≡ polynomial_list sheet.now from.now into.old }
{
    DeskValue::from(sheet::list_to_polynomial(sheet, from, into))
}

// The normal coordinates of a list of elements.
#[unsafe(no_mangle)]
pub extern "C" fn desk_list_to_normal(sheet: &[u8], from: &[u64], into: &mut [u64]) -> DeskValue
    ensures answer { result ≡ desk_value (normal_list_report sheet.now from.now (length into.old)) }
    ensures written { into.new ≡ normal_list sheet.now from.now into.old }
{
    DeskValue::from(sheet::list_to_normal(sheet, from, into))
}

// The product of normal coordinates a and b.
#[unsafe(no_mangle)]
pub extern "C" fn desk_times(sheet: &[u8], a: u64, b: u64) -> DeskValue
    ensures { result ≡ desk_value (times_report sheet.now a b) }
{
    DeskValue::from(sheet::times(sheet, a, b))
}

// The inverse of normal coordinates a.
#[unsafe(no_mangle)]
pub extern "C" fn desk_inverse(sheet: &[u8], a: u64) -> DeskValue
    ensures { result ≡ desk_value (inverse_report sheet.now a) }
{
    DeskValue::from(sheet::inverse(sheet, a))
}

// The quotient of normal coordinates.
#[unsafe(no_mangle)]
pub extern "C" fn desk_quotient(sheet: &[u8], dividend: u64, divisor: u64) -> DeskValue
    ensures { result ≡ desk_value (quotient_report sheet.now dividend divisor) }
{
    DeskValue::from(sheet::quotient(sheet, dividend, divisor))
}

// The text of the n matrices of a sheet, at the front of the lent text.
#[unsafe(no_mangle)]
pub extern "C" fn desk_write_matrices(sheet: &[u8], text: &mut [u8]) -> DeskIssued
    ensures answer { result ≡ desk_issued (write_text_report sheet.now (length text.old)) }
    ensures written { text.new ≡ written_text sheet.now text.old }
{
    DeskIssued::from(matrices::write_matrices(sheet, text))
}

// Whether the text is that of f and the element.
#[unsafe(no_mangle)]
pub extern "C" fn desk_read_matrices(f: u64, element: u64, text: &[u8]) -> DeskIssued
    ensures { result ≡ desk_issued (read_text_report f element text.now) }
{
    DeskIssued::from(matrices::read_matrices(f, element, text))
}

// Why reading refuses the sheet; all zero where it does not.
#[unsafe(no_mangle)]
pub extern "C" fn desk_why(sheet: &[u8]) -> DeskCause
    ensures { result ≡ desk_cause (why_report sheet.now) }
{
    DeskCause::from(causes::why(sheet))
}

// The normal class leader from first to last, both included, whose table has the fewest ones, the smallest on a tie, and the count of all
// normal leaders there; or nothing.
#[unsafe(no_mangle)]
pub extern "C" fn desk_search(f: u64, first: u64, last: u64) -> DeskFound
    ensures { result ≡ desk_found (found_flag (search_answer f first last)) (search_report f first last) }
{
    DeskFound::from(search::search(f, first, last))
}
