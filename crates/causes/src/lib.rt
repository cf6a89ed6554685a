// Why reading, check and build refuse (document 02, §5).
#![tactic(auto)]

mod answer;
mod behind;
mod calls;

pub use answer::{Cause, Difference, Field};
pub use calls::{is_of_shape, why, why_build, why_check};
