//! What a planning stands on.

use cps_problem::Problem;
use std::alloc::Global;

/// A problem whose stages are to be filled, with what the threads that fill them need.
#[derive(Drop)]
pub(crate) struct Planning<'a, R, G> {
    pub(crate) rt: &'a R,
    pub(crate) gate: &'a G,
    pub(crate) alloc: Global,
    pub(crate) problem: &'a Problem,
}
