//! That the traffic of a seed can land.
#![tactic(auto)]

mod laws;

pub use laws::traffic_can_land;
