//! The sequencer: the flights in the system, the problem that they pose, and the plan that is shown.
#![tactic(auto)]

mod begin;
mod frozen;
mod order;
mod plan;
mod plan_of;
mod predecessors;
mod problem;
mod seconds;
mod sequencer;
mod waiting;

pub use begin::{opening, opening_problem};
pub use plan_file::{Landing, Plan};
pub use problem::problem_of;
pub use sequencer::Sequencer;
pub use situations::{BeginFault, Refusal, Situation};
