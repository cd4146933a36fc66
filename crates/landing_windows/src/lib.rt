//! The windows of a flight, the closures of the runway, and the open seconds: those in a window and in no closure.
#![tactic(auto)]

mod closures;
pub mod laws;
mod open_times;
mod search;
mod windows;

pub use closures::{ClosureFault, Closures};
pub use open_times::OpenTimes;
pub use windows::{LAST_SECOND, WindowFault, WindowSet};
