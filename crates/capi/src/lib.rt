// The calls of the desk for C and Rust: each hands its arguments to the library's call of that name, and its answer out as numbers. Two
// more say what a typed word means.
#![tactic(auto)]

mod answer;
mod calls;
mod typed;

pub use answer::{DeskCause, DeskFound, DeskIssued, DeskValue, DeskWord};
pub use calls::{
    desk_build, desk_check, desk_inverse, desk_list_to_normal, desk_list_to_polynomial,
    desk_multiply, desk_quotient, desk_read, desk_read_matrices, desk_search, desk_square,
    desk_times, desk_to_normal, desk_to_polynomial, desk_trace, desk_why, desk_write_matrices,
};
pub use typed::{desk_number_of, desk_polynomial_of};
