//! The wake categories, and the table of separations between leader and follower.
#![tactic(auto)]

mod category;
mod table;

pub use category::{CATEGORIES, CATEGORY_COUNT, Category};
pub use table::{GREATEST_SEPARATION, PairTable, Row, Rows, SAMPLE, SAMPLE_TEXT, TableFault};
