//! The writer of certificates: what a planner holds of a problem, with its answer, as a certificate that leaves nothing out.
#![tactic(auto)]

mod answer;
mod days;
mod gather;
mod laws;
mod order;
mod pairs;
mod slot;
mod states;
mod whole_states;
mod writer;

pub use writer::certify;
