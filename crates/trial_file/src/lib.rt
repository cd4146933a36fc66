//! The trial file: its trials, and the first fault of a file that is none.
#![tactic(auto)]

mod fault;
mod reading;
mod shared;
mod trial;
mod words;

pub use fault::{TrialCause, TrialFault};
pub use reading::{MOST_TRIALS, read_trials};
pub use trial::Trial;
