//! The commands that ask more of files than a plan: the first plan, trials and the audit of a plan.
#![tactic(auto)]

mod audits;
mod first;
mod first_laws;
mod first_plans;
mod what_ifs;

pub use audits::{audit_texts_are_bounded, run_audit};
pub use first::run_first;
pub use first_laws::{first_costs_as_every_plan, first_text_is_one, first_texts_are_bounded};
pub use what_ifs::{TrialFiles, run_what_if, what_if_text_is_one, what_if_texts_are_bounded};
