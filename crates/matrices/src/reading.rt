// The public call read_matrices: the conditions of a build, and then the text, line by line, against the one that the table gives. No copy
// of the right text is made: each byte is worked out where it stands.
ghost use Rattle.std.specs.Prelude.{◌≡◌, cond, [], ◌∷◌, ◌++◌, ◌+◌, ◌^◌, ◌≤◌, ◌<◌, drop};
ghost use Rattle.refusals.specs.Verdicts.{first_of, clear};
ghost use Rattle.refusals.specs.Answers.{checked_of};
ghost use Rattle.field.specs.Refusals.{field_order};
ghost use Rattle.normal.specs.TableProduct.{entry};
ghost use Rattle.sheet.specs.Answers.{summary_of, issued_of, issued_report};
ghost use Rattle.matrices.specs.Matrices.{line_end, line_bytes, matrix_bytes, text_bytes};
ghost use Rattle.matrices.specs.Orders.{common_lines, match_rule, match_order};
ghost use Rattle.matrices.specs.Turned.{twice_limit, turned};
ghost use Rattle.matrices.specs.Answers.{read_text_answer, read_text_report};

use super::line::{LINE_END, RowsTwice, digit, matrix_size, rows_twice, text_size};
use field::{Ring, field_verdict, operand_verdict};
use gf2::Spread;
use normal::build_basis;
use refusals::{Fault, Refusal, refused_at};
use sheet::{Summary, summary_of};

// Whether a line ends at a place of the text.
fn common_end(text: &[u8], at: usize) -> bool
    ensures { cond result 1 0 ≡ common_lines (drop at text.now) (line_end ∷ []) }
{
    at < text.len() && text[at] == LINE_END
}

impl RowsTwice {
    // Whether a line stands at a place of the text, with its end. The right line has one bit of each of the n rows from a first one on. A
    // text that is cut before the end of the line has none of it, so it is not compared.
    fn common_line(&self, first: usize, bit: usize, text: &[u8], at: usize) -> bool
        requires { (self.now.n + first ≤ twice_limit) × (bit < 64) × (at + self.now.n < 2 ^ 64) }
        ensures { cond result 1 0 ≡ common_lines (drop at text.now) (line_bytes self.now.n (λ j. entry self.now.rows (j + first) bit)) }
    {
        let n = self.n;
        if text.len() <= at + n {
            return false;
        }
        for j in 0..n {
            if text[at + j] != digit(self.rows[j + first], bit) {
                return false;
            }
        }
        common_end(text, at + n)
    }

    // How many lines of T_k, its empty line with them, stand at a place of the text before the first that does not.
    fn common_matrix(&self, k: usize, text: &[u8], at: usize) -> usize
        requires { (k < self.now.n) × (at < 2 ^ 32) }
        ensures { result ≡ common_lines (drop at text.now) (matrix_bytes self.now.n (turned self.now.n self.now.rows k)) }
    {
        let n = self.n;
        for i in 0..n {
            let first = n - i;
            if !self.common_line(first, (k + first) % n, text, at + i * (n + 1)) {
                return i;
            }
        }
        n + usize::from(common_end(text, at + n * (n + 1)))
    }

    // How many lines of the right text the text begins with.
    fn common_text(&self, text: &[u8]) -> usize
        ensures { result ≡ common_lines text.now (text_bytes self.now.n (turned self.now.n self.now.rows)) }
    {
        let n = self.n;
        let size = matrix_size(n);
        for k in 0..n {
            let lines = self.common_matrix(k, text, k * size);
            if lines <= n {
                return k * (n + 1) + lines;
            }
        }
        n * (n + 1)
    }

    // 14, with the first line that is wrong, missing or too many.
    fn match_verdict(&self, text: &[u8]) -> Result<(), Refusal>
        requires { 1 ≤ self.now.n }
        ensures { result ≡ checked_of (first_of (match_rule text.now (text_bytes self.now.n (turned self.now.n self.now.rows)) ∷ [])) }
    {
        let n = self.n;
        let lines = self.common_text(text);
        if lines < n * (n + 1) {
            return refused_at(Fault::OtherText, lines);
        }
        if text.len() != text_size(n) {
            return refused_at(Fault::OtherText, lines);
        }
        Ok(())
    }
}

// The text of an accepted f and an element: 5, then 14.
fn read_built(spread: &Spread, ring: Ring, element: u64, text: &[u8]) -> Result<Summary, Refusal>
    requires { (element < 2 ^ ring.n) × (first_of (field_order ring.f) ≡ clear) }
    ensures { result ≡ issued_of (first_of (match_order ring.f ring.n element text.now)) (summary_of ring.f ring.n element) }
{
    match build_basis(spread, ring.f, ring.n, element) {
        Ok(basis) => {
            let rows = rows_twice(&basis.table, ring.n as usize);
            rows.match_verdict(text)?;
            Ok(summary_of(ring, element, basis.table))
        }
        Err(_) => Err(Refusal::from(Fault::NotNormal)),
    }
}

// 2, 3, 5, 14.
fn read_operand(ring: Ring, element: u64, text: &[u8]) -> Result<Summary, Refusal>
    requires { element < 2 ^ ring.n }
    ensures { result ≡ issued_of (first_of (field_order ring.f ++ match_order ring.f ring.n element text.now)) (summary_of ring.f ring.n element) }
{
    let spread = Spread::new();
    field_verdict(&spread, ring)?;
    read_built(&spread, ring, element, text)
}

// Whether the text is the one of f and the element.
pub fn read_matrices(f: u64, element: u64, text: &[u8]) -> Result<Summary, Refusal>
    ensures answer { result ≡ read_text_answer f element text.now }
    ensures report { issued_report result ≡ read_text_report f element text.now }
{
    let ring = operand_verdict(f, element)?;
    read_operand(ring, element, text)
}
