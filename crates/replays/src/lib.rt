//! Runs over the events of a log, one step of the rules and one put for each: the answers with the plans, or the steps of the
//! plannings and their total.
#![tactic(auto)]

mod effort_lines;
mod efforts;
mod laws;
mod lines;
mod over_events;
mod stops;

pub use efforts::{Opened, effort};
pub use laws::steps_are_one;
pub use over_events::replay;
pub use stops::Stop;
