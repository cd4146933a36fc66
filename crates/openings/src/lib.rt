//! What the aerodrome file and the flight file open, and how a command over them may end.
#![tactic(auto)]

mod answering;
mod opening;
mod report;

pub use answering::answer;
pub use opening::{begin, open_files};
pub use report::{Report, print_report};
