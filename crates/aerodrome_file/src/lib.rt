//! The aerodrome file: the aerodrome that it says, or its first fault.
#![tactic(auto)]

mod closures;
mod fault;
mod frozen;
mod key_text;
mod keys;
mod passed;
mod reading;
mod separations;
mod tables;
mod values;
mod version;
mod words;

pub use arrivals::{Aerodrome, FrozenLanding, FrozenList, PassedCount, PassedList};
pub use fault::{AeroFault, Key, Part};
pub use key_text::KeyText;
pub use reading::read_aerodrome;
