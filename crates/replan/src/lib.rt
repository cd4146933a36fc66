//! The planner: it fills the stages of the position network of a problem, takes the least label or the cheapest pair of the
//! last one, and goes back from it to an order.
//!
//! The plan as a path through a network follows Balakrishnan and Chandran (2010) in outline; its exact form is this project's
//! own.
#![tactic(auto)]

mod any_kept;
mod bound;
mod filling;
mod held;
mod hints;
mod kept;
mod labels;
mod least;
mod least_pairs;
mod plan;
mod planning;
mod readers;
mod stages;
mod trace;
mod window_nodes;

pub use any_kept::AnyKept;
pub use bound::due_is_small;
pub use cps_network::Node;
pub use kept::Kept;
pub use least::least_value;
pub use window_nodes::WindowNodes;
