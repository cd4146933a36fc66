//! The commands that print plans, replays and their steps, over the bytes of their files.
#![tactic(auto)]

mod effort;
mod plan;
mod replay;
mod replay_laws;
mod text_laws;
mod text_lengths;
mod trial;

pub use effort::run_effort;
pub use plan::run_plan;
pub use replay::{LogFiles, run_replay};
pub use replay_laws::{
    clock_shows_no_dearer_plan, few_pass_in_a_printed_replay, printed_states_are_sound,
    text_fixes_the_replay,
};
pub use text_laws::{effort_text_is_one, trial_text_is_one};
pub use text_lengths::planning_texts_are_bounded;
pub use trial::{TrialNumbers, run_trial};
