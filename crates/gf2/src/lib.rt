// Polynomials over the two-element field as numbers: bit i is the coefficient of x^i. f, its degree n and an element stay three numbers: C hands
// them over as such, and a type of f and n would be made anew by every caller and be no plainer.
#![tactic(auto)]

mod degree;
mod division;
mod euclid;
mod multiplication;
mod powers;
mod spreading;
mod squaring;

pub use degree::{LIMIT, degree_of};
pub use division::{element_of, picked};
pub use euclid::greatest_common;
pub use multiplication::{multiply, multiply_by_x};
pub use powers::power;
pub use spreading::Spread;
pub use squaring::square;
