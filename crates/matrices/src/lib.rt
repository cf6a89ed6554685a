// The full set of matrices as text (document 02, §4): writing it from a sheet, and reading it back.
#![tactic(auto)]

mod line;
mod reading;
mod writing;

pub use line::{TEXT_LIMIT, text_size};
pub use reading::read_matrices;
pub use writing::write_matrices;
