//! An aerodrome, its flights and the events of a log, as the files give them: the types between the readers and the rules.
#![tactic(auto)]

mod aerodrome;
mod after;
mod event;
mod flight;
mod frozen_list;
mod passed_list;
mod shared;
mod shift;

pub use aerodrome::Aerodrome;
pub use after::After;
pub use event::{Event, Revision};
pub use flight::Flight;
pub use frozen_list::{FrozenLanding, FrozenList};
pub use passed_list::{PassedCount, PassedList};
pub use shift::is_beyond;
