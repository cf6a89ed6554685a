// The public call write_matrices, and the text of a table, line after line.
ghost use Rattle.std.specs.Prelude.{Ok, ◌≡◌, ◌+◌, ◌≤◌, ◌<◌, length};
ghost use Rattle.normal.specs.TableProduct.{entry};
ghost use Rattle.sheet.specs.Bytes.{pasted};
ghost use Rattle.sheet.specs.Answers.{issued_report, read_answer};
ghost use Rattle.matrices.specs.Matrices.{line_bytes, matrix_bytes, text_bytes, matrix_size, text_size};
ghost use Rattle.matrices.specs.Turned.{twice_limit, turned};
ghost use Rattle.matrices.specs.Answers.{write_text_answer, write_text_report, written_text};

use super::line::{LINE_END, RowsTwice, digit, matrix_size, rows_twice, text_size};
use refusals::{Fault, Refusal};
use sheet::{RECORD, Summary, TABLE_AT, load_rows, read};

impl RowsTwice {
    // A line at a place of the text: one bit of the n rows from a first one on.
    fn put_line(&self, first: usize, bit: usize, text: &mut [u8], at: usize)
        requires { (self.now.n + first ≤ twice_limit) × (bit < 64) × (at + (self.now.n + 1) ≤ length text.old) }
        ensures { text.new ≡ pasted text.old at (line_bytes self.now.n (λ j. entry self.now.rows (j + first) bit)) }
    {
        let n = self.n;
        for j in 0..n {
            text[at + j] = digit(self.rows[j + first], bit);
        }
        text[at + n] = LINE_END;
    }

    // T_k and its empty line, at a place of the text.
    fn put_matrix(&self, k: usize, text: &mut [u8], at: usize)
        requires { (k < self.now.n) × (at + matrix_size self.now.n ≤ length text.old) }
        ensures { text.new ≡ pasted text.old at (matrix_bytes self.now.n (turned self.now.n self.now.rows k)) }
    {
        let n = self.n;
        for i in 0..n {
            let first = n - i;
            self.put_line(first, (k + first) % n, text, at + i * (n + 1));
        }
        text[at + n * (n + 1)] = LINE_END;
    }

    // All n matrices, at the text's front.
    fn put_text(&self, text: &mut [u8])
        requires { text_size self.now.n ≤ length text.old }
        ensures { text.new ≡ pasted text.old 0 (text_bytes self.now.n (turned self.now.n self.now.rows)) }
    {
        let n = self.n;
        let size = matrix_size(n);
        for k in 0..n {
            self.put_matrix(k, text, k * size);
        }
    }
}

// The text of a sheet that reading accepts: 6, or its n matrices.
fn write_accepted(sheet: &[u8], summary: Summary, text: &mut [u8]) -> Result<Summary, Refusal>
    requires { read_answer sheet.now ≡ Ok summary }
    ensures answer { result ≡ write_text_answer sheet.now (length text.old) }
    ensures report { issued_report result ≡ write_text_report sheet.now (length text.old) }
    ensures written { text.new ≡ written_text sheet.now text.old }
{
    let n = sheet.len() / RECORD;
    if text.len() < text_size(n) {
        return Err(Refusal::from(Fault::NoRoom));
    }
    let table = load_rows(sheet, TABLE_AT);
    let rows = rows_twice(&table, n);
    rows.put_text(text);
    Ok(summary)
}

// The n matrices of a sheet, at the front of the lent text.
pub fn write_matrices(sheet: &[u8], text: &mut [u8]) -> Result<Summary, Refusal>
    ensures answer { result ≡ write_text_answer sheet.now (length text.old) }
    ensures report { issued_report result ≡ write_text_report sheet.now (length text.old) }
    ensures written { text.new ≡ written_text sheet.now text.old }
{
    let summary = read(sheet)?;
    write_accepted(sheet, summary, text)
}
