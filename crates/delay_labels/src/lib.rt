//! The pairs of a stage for the weighted delay: for each window the undominated pairs of the second at which a legal prefix
//! that ends in it lands its last flight, and of what its flights cost together.
//!
//! Pairs as labels on the nodes of the position network are this project's own.
#![tactic(auto)]

mod costs;
mod fill;
mod merge;
mod shared;
mod source;
mod successor;

pub use costs::Costs;
pub use fill::{fill_costs, fill_costs_alone};
pub use source::source_pair;
