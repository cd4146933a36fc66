//! The event log: its events, and the first fault of a file that is none.
#![tactic(auto)]

mod columns;
mod fault;
mod kinds;
mod reading;
mod span;
mod words;

pub use arrivals::Event;
pub use fault::{Col, FieldCause, LogCause, LogFault};
pub use reading::read_events;
pub use span::read_span;
