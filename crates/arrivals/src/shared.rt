//! Threads may share and take the types of this crate.

use crate::{Aerodrome, Event, Flight};

// Stands only for a type that threads may share and take.
fn is_shared<T: Send + Sync>() {}

fn are_shared() {
    is_shared::<Aerodrome>();
    is_shared::<Event>();
    is_shared::<Flight>();
}
