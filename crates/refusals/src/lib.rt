// What a call refuses and answers (document 01, "Refusal numbers").
#![tactic(auto)]

mod answer;
mod fault;

pub use answer::{Refusal, refused, refused_at};
pub use fault::Fault;
