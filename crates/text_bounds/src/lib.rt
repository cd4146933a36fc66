//! How many bytes the texts that the commands print may have.
#![tactic(auto)]

mod laws;

pub use laws::{
    certificates_are_bounded, plan_blocks_are_bounded, runs_are_bounded,
    trial_summaries_are_bounded, whole_certificates_are_bounded,
};
