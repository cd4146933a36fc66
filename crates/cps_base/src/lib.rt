//! Callsigns, numbers in text, counts of steps, and how many of each thing there may be.
#![tactic(auto)]

mod callsign;
mod ledger;
mod limits;
mod number;

pub use callsign::Callsign;
pub use ledger::{Counted, Ledger, Silent, Steps};
pub use limits::{
    GREATEST_DELAY_K, GREATEST_K, GREATEST_VALUE, GREATEST_WEIGHT, GREATEST_WORD, LONGEST_FREEZE,
    MOST_BYTES, MOST_CLOSURES, MOST_EVENTS, MOST_FLIGHTS, MOST_OPEN_SECONDS, MOST_PREDECESSORS,
    MOST_WAITING, MOST_WINDOWS,
};
pub use number::{NumberFault, read_number};
