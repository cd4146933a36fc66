//! First come, first served: the ranks of flights by estimate and callsign.
#![tactic(auto)]

mod order;

pub use order::Order;
