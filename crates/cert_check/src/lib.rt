//! The judge of certificates: whether one shows that a problem has this optimum or none, or what it fails to show first.
//! It stands on the problem, the certificate and the mathematics alone, and on nothing of a planner.
#![tactic(auto)]

mod closure;
mod judging;
mod landed;
mod laws;
mod node;
mod objective;
mod permitted;
mod seconds;
mod shape;
mod verdict;

pub use judging::judge;
pub use laws::{
    best_lists_are_shown, patterns_are_bits, situation_has_one_list_of_states,
    situation_has_one_verdict, whole_certificates_are_accepted, whole_states_are_few,
    whole_states_are_fixed,
};
pub use verdict::{Reason, Verdict};
