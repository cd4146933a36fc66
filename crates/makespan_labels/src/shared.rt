//! Threads may share and take the types of this crate.

use crate::Column;

// Stands only for a type that threads may share and take.
fn is_shared<T: Send + Sync>() {}

fn are_shared() {
    is_shared::<Column>();
}
