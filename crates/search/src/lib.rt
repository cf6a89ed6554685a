// The search of a range for the normal basis of least complexity (document 01, "Search").
#![tactic(auto)]

mod answer;
mod joining;
mod leader;
mod searching;
mod walking;

pub use answer::{Best, Search};
pub use searching::search;
