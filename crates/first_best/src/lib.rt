//! The first best schedule: of the best and tight ones, the one whose flights land in the least order of ranks. It comes from
//! the pairs by which each node of the held stages can still be completed, made from the last stage backward: all of them, or
//! those that are of use at a value.
#![tactic(auto)]

mod ahead;
mod budget;
mod choice;
mod complete;
mod gather;
mod laws;
mod node;
mod pairs;
mod stage;
mod ways;

pub use ahead::Ahead;
pub use choice::first_schedule;
