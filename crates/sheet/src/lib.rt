// Sheets: records of 32 bytes, and the calls that build, read, convert, multiply and divide through them.
#![tactic(auto)]

mod answer;
mod building;
mod converting;
mod dividing;
mod in_place;
mod layout;
mod lists;
mod loading;
mod reading;
mod record;
mod shape;
mod shaped;
mod unreduced;

pub use answer::Summary;
pub use building::{build, summary_of};
pub use converting::{times, to_normal, to_polynomial};
pub use dividing::{inverse, quotient};
pub use layout::{RECORD, TABLE_AT};
pub use lists::{LIST_LIMIT, list_to_normal, list_to_polynomial};
pub use loading::{Row, load_rows, polynomial_of, row_at};
pub use reading::read;
