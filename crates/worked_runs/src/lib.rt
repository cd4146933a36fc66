//! Worked runs: runs of the program over files in memory, in which nothing fails but for want of memory or where a folder
//! and sinks are told to fail, and the outputs that a worked example shows.
#![tactic(auto)]

mod fakes;
mod output;
mod runs;

pub use fakes::{failing_folder, failing_sink};
pub use output::Outputs;
pub use runs::{MemoryRun, run_in_memory};
