// The numbers that a designer types on a command line.
#![tactic(auto)]

mod digits;
mod numbers;
mod polynomials;

pub use numbers::number;
pub use polynomials::polynomial;
