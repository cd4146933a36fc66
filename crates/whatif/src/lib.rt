//! Trials side by side: the value of the plan as the files are, and with one change a trial.
#![tactic(auto)]

mod laws;
mod outcome;
mod refusal;
mod running;
mod shared;
mod text;

pub use laws::{
    closure_gives_no_better_outcome, more_shift_gives_no_worse_outcome, outcomes_are_one,
};
pub use outcome::{Outcome, TrialRefusal};
pub use running::run_trials;
pub use text::append_outcomes;
pub use trial_file::{Trial, TrialCause, TrialFault, read_trials};
