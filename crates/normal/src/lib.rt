// What a normal basis is: conjugates, the basis of an element, its complexity and grade, and products, powers and inverses
// of coordinates.
#![tactic(auto)]

mod basis;
mod by_bytes;
mod conjugates;
mod grade;
mod power;
mod product;

pub use basis::{Basis, build_basis};
pub use by_bytes::product_by_bytes;
pub use grade::{Grade, complexity_of, grade_of};
pub use power::inverse_of;
pub use product::product_of;
