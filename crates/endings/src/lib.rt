//! How a run ends: its status and its one line on the standard error.
#![tactic(auto)]

mod ending;
mod faults;
mod lines;
mod loads;
mod opening_words;

pub use ending::{Answer, Ending, FilesFault};
pub use lines::{say, status};
pub use loads::load_all;
