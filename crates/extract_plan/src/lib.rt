//! The schedule of a landing order: each flight as early as the order allows, and what it costs.
#![tactic(auto)]

mod objective;
mod pair_value;
mod retiming;

pub use objective::value_of;
pub use pair_value::value_of_pair;
pub use retiming::{blank, retime};
