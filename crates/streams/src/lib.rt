// What the programs share: what they are run on, the words of the command line, reading an input to its end, writing a text whole, saying
// what failed, and telling how a run ended. A read or a write that fails is never taken for an end or for success.
#![tactic(auto)]

mod arguments;
mod ending;
mod reading;
mod surroundings;
mod writing;

pub use arguments::{word_at, word_count};
pub use ending::{Ending, Failure, end};
pub use reading::read_whole;
pub use surroundings::Host;
pub use writing::{cannot, finish_output, write_output, write_whole};
