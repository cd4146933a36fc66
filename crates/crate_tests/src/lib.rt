//! Tests of the crates through their public calls, in a crate of their own, so that each crate is proved once.
#![tactic(auto)]

pub mod bank;
#[cfg(test)]
mod tests;
