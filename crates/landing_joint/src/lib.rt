//! The joint between the rules and the mathematics of plain lists: a situation of the rules as one of numbered flights,
//! a problem by rank as the theory's. Its laws speak of the rules' words alone, each pinned by the contract of a
//! function without a body.
#![tactic(auto)]

pub mod examples;
pub mod laws;
