// The text of a listing (document 01, "Lister"; document 02, §5).
#![tactic(auto)]

mod cause;
mod lines;
mod putting;
mod text;

pub use cause::{CAUSE_ROOM, put_cause};
pub use putting::{NUMBER_ROOM, put_bytes, put_number};
pub use text::{LISTING_ROOM, listing};
