//! Work by pieces on several threads: a column of numbers filled in pieces of 1,024 entries, and a list made item by
//! item. Each piece passes a gate before it works. The answer is that of one thread.
#![tactic(auto)]

mod lists;
mod numbers;

pub use lists::{fill_lists, fill_long_lists};
pub use numbers::{PIECE, fill_numbers};
