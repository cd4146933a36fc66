//! Every rule that a plan block breaks in a situation, without planning.
#![tactic(auto)]

mod auditing;
mod finding;
mod found;
mod head;
pub mod laws;
mod names;
mod order;
mod rules;
mod seen;
mod shift;
mod text;

pub use auditing::audit;
pub use finding::Finding;
pub use plan_file::{Block, BlockLines, PlanFault, PlanText, read_plan};
pub use text::append_findings;
