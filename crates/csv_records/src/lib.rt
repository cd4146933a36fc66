//! The records of a text, one at a time, and the values of a file of records.
#![tactic(auto)]

mod cause;
mod format;
mod records;
mod values;
mod width;

pub use cause::FileCause;
pub use format::Format;
pub use records::{Records, field};
pub use values::read_values;
