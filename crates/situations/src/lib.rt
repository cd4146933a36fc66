//! The situation on the approach: the flights in the system, what an event answers there, and what it makes of it.
#![tactic(auto)]

mod active;
mod begin_fault;
mod by_callsign;
mod change;
mod freeze;
mod given;
pub mod laws;
mod open_seconds;
mod opening_refusal;
mod refusal;
mod refuse;
mod separation;
mod situation;

pub use active::Active;
pub use begin_fault::BeginFault;
pub use open_seconds::is_open;
pub use opening_refusal::{OpeningFault, opening_fault};
pub use refusal::Refusal;
pub use separation::are_apart;
pub use situation::{Fixed, Situation};
