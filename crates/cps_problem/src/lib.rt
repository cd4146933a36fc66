//! The problem that a planner solves: the waiting flights by rank, and what the frozen ones leave them; the
//! schedules of it, and what a planner is.
#![tactic(auto)]

mod difference;
mod landings;
mod planner;
mod problem;
mod schedule;
mod shared;

pub use landing_rules::Objective;
pub use planner::Planner;
pub use problem::{Head, Problem, Waiting};
pub use schedule::Schedule;
