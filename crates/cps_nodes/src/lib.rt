//! Windows of the position network: the last 2k + 1 landings of a list of ranks, as offsets from their places.
//!
//! The network follows Balakrishnan and Chandran (2010) in outline; the list of offsets is this project's own.
#![tactic(auto)]

mod laws;
mod order;
mod window;

pub use laws::window_laws;
pub use window::Window;
