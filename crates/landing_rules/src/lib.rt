//! The rules of landing sequences under constrained position shifting, as definitions that every other
//! crate cites (`specs/`), with laws that follow from them alone and worked examples.
#![tactic(auto)]

pub mod examples;
pub mod laws;
mod objective;

pub use objective::Objective;
