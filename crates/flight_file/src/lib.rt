//! The flight file: its flights, the first fault of a file that is none, and its plain spelling.
#![tactic(auto)]

mod after;
mod fault;
mod fields;
mod printing;
mod reading;
mod windows;
mod words;

pub use after::read_after;
pub use arrivals::{After, Flight};
pub use fault::{AfterCause, FieldFault, FlightCause, FlightFault, WindowsCause};
pub use fields::{callsign_at, flight_at, second_at, windows_at};
pub use printing::print_flights;
pub use reading::read_flights;
pub use windows::read_windows;
