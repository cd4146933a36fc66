//! What the landings at a stage need, by rank: how far each flight that may land there lands behind each that may have landed
//! just before, its first open span, and what its landing costs.
#![tactic(auto)]

mod follower;
mod landings;

pub use landings::StageLandings;
