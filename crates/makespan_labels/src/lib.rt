//! The labels of a stage for the makespan: for each window the least second at which a legal prefix that ends in it can
//! land its last flight.
//!
//! Labels on the nodes of the position network follow Balakrishnan and Chandran (2010) in outline; their exact form is this
//! project's own.
#![tactic(auto)]

mod column;
mod label;
mod shared;
mod source;

pub use column::{Column, NO_LABEL};
pub use label::{fill, fill_alone};
pub use source::source_of;
