// The field that a polynomial defines: what makes it accepted, powers of its elements, and the calls check, multiply, square and trace.
#![tactic(auto)]

mod accepted;
mod calls;
mod judging;
mod powers;
mod ring;

pub use accepted::{field_verdict, squared_times, too_large};
pub use calls::{check, multiply, square, trace};
pub use judging::{elements_verdict, operand_verdict, operands_verdict};
pub use powers::element_power;
pub use ring::Ring;
