// The smallest divisor of a polynomial: the cause of refusal 2 (document 02, §5).
#![tactic(auto)]

mod lowest;
mod peeling;
mod quotient;
mod splitting;

pub use peeling::smallest_divisor;
