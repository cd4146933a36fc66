//! Threads may share and take the types of this crate.

use crate::{Links, Stage};

// Stands only for a type that threads may share and take.
fn is_shared<T: Send + Sync>() {}

fn are_shared<const W: usize>() {
    is_shared::<Stage<W>>();
    is_shared::<Links<W>>();
}
