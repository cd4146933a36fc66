//! The plan file: the block of a plan as a text, and its first line that is not of its form. A plan and its landings as they
//! are shown.
#![tactic(auto)]

mod block;
mod landing;
pub mod laws;
mod lines;
mod plan;
mod reading;
mod shown;

pub use block::{Block, BlockLines};
pub use landing::Landing;
pub use plan::{PlanFault, PlanText};
pub use reading::read_plan;
pub use shown::Plan;
