//! The text of a plan, of the summary of a trial, and of a refused event.
#![tactic(auto)]

mod block;
mod kept_text;
mod refusal;
mod trial;

pub use block::plan_block;
pub use kept_text::KeptText;
pub use refusal::{append_covered, refusal_line};
pub use trial::trial_summary;
