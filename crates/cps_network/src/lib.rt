//! Stages of the position network: the windows in which a legal prefix of a length may end, in ascending order.
//!
//! The network follows Balakrishnan and Chandran (2010) in outline; its exact form is this project's own.
#![tactic(auto)]

mod again;
mod ahead;
mod compact;
mod gather;
mod groups;
mod last;
mod laws;
mod links;
mod next;
mod node;
mod permit;
mod shared;
mod source_range;
mod stage;

pub use again::next_stage_again;
pub use last::last_rank;
pub use laws::{
    due_is_bounded, kept_stages, node_laws, prefix_laws, prefixes_keep_the_separation,
    windows_tell_their_ranks,
};
pub use links::Links;
pub use next::next_stage;
pub use node::{Node, placed_node};
pub use permit::is_permitted;
pub use source_range::sources;
pub use stage::Stage;
