//! Traffic that a number makes: an aerodrome and its flights, for a trial of the planner.
#![tactic(auto)]

mod draws;
mod flights;
mod sample;
mod traffic;

pub use traffic::{Traffic, generate};
