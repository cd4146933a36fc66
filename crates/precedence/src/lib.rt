//! Which flights must land before which: pairs of ranks, kept in place.
#![tactic(auto)]

mod pairs;

pub use pairs::Pairs;
