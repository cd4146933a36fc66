//! Runs of the whole program with gates that count the pieces of its work, or hold one back until another has passed, and events
//! in memory of which each allocation is refused.
#![tactic(auto)]

mod gates;
#[cfg(test)]
mod tests;

pub use gates::{CountingGate, HoldingGate};
