//! What all windows of a stage have ahead of them.

ghost use Rattle.std.specs.Prelude.{◌≡◌, ℕ, ◌+◌, ◌*◌, ◌/◌, ◌<◌, ◌≤◌, ◌⊎◌, ◌↔◌, length, IfSome};
ghost use Rattle.precedence.specs.Pairs.{HasBit};
ghost use Rattle.cps_network.specs.Again.{IsReady};
ghost use Rattle.cps_network.specs.Extended.{HasFree, HasOpen, IsOpen};

use crate::again::is_ready;
use crate::permit::{is_in_time, most_shift, reach};
use cps_problem::Problem;

// The offsets from -k to k at which a rank is open to land after a stage, as bits k + offset, and of these the ones whose rank
// follows none but ranks that are due.
#[derive(Clone, Copy)]
pub(crate) struct Ahead {
    pub(crate) open: u8,
    pub(crate) free: u8,
}

// Some offsets and that of a rank, where it is open.
fn with_open(problem: &Problem, stage: u8, rank: u8, offsets: u8) -> u8
    requires stage { stage < length problem.now.flights }
    requires rank { (1 ≤ rank) × (rank ≤ length problem.now.flights) }
    requires reach { (rank ≤ stage + 1 + problem.now.k) × (stage + 1 ≤ rank + problem.now.k) }
    ensures { (j : ℕ) → HasBit result j ↔ (HasBit offsets j
        ⊎ ((j + stage + 1 ≡ rank + problem.now.k) × IsOpen problem.now stage rank)) }
{
    let with = offsets | 1 << (rank + most_shift(problem) - stage - 1);
    if is_in_time(problem, stage, rank) {
        with
    } else {
        offsets
    }
}

// Some offsets and that of a rank, where it is open and follows none but ranks that are due.
fn with_free(problem: &Problem, stage: u8, rank: u8, offsets: u8) -> u8
    requires stage { stage < length problem.now.flights }
    requires rank { (1 ≤ rank) × (rank ≤ length problem.now.flights) }
    requires reach { (rank ≤ stage + 1 + problem.now.k) × (stage + 1 ≤ rank + problem.now.k) }
    ensures { (j : ℕ) → HasBit result j ↔ (HasBit offsets j
        ⊎ ((j + stage + 1 ≡ rank + problem.now.k)
        × (IsOpen problem.now stage rank × IsReady problem.now stage rank))) }
{
    if is_ready(problem, stage, rank) {
        with_open(problem, stage, rank, offsets)
    } else {
        offsets
    }
}

// The offsets at which a rank is open after a stage.
fn open_offsets(problem: &Problem, stage: u8) -> u8
    requires { stage < length problem.now.flights }
    ensures { HasOpen problem.now stage result }
{
    let (first, end) = reach(problem, stage);
    let mut offsets = 0;
    for rank in first..end {
        offsets = with_open(problem, stage, rank, offsets);
    }
    offsets
}

// Of these the ones whose rank follows none but ranks that are due.
fn free_offsets(problem: &Problem, stage: u8) -> u8
    requires { stage < length problem.now.flights }
    ensures { HasFree problem.now stage result }
{
    let (first, end) = reach(problem, stage);
    let mut offsets = 0;
    for rank in first..end {
        offsets = with_free(problem, stage, rank, offsets);
    }
    offsets
}

// What the windows of a stage have ahead of them.
pub(crate) fn ahead_of(problem: &Problem, stage: u8) -> Ahead
    requires { stage < length problem.now.flights }
    ensures open { HasOpen problem.now stage result.open }
    ensures free { HasFree problem.now stage result.free }
{
    Ahead {
        open: open_offsets(problem, stage),
        free: free_offsets(problem, stage),
    }
}

impl Ahead {
    // Of the offsets that a window accepts those that are free, where no others are open.
    #[inline]
    pub(crate) fn free_of(&self, accepted: u64) -> Option<u8>
        ensures some { IfSome result (λ offsets. (j : ℕ) → HasBit offsets j
            → HasBit accepted j × HasBit self.now.free j) }
        ensures all { IfSome result (λ offsets. (j : ℕ) → HasBit accepted j
            → HasBit self.now.open j → HasBit offsets j) }
    {
        let free = accepted & u64::from(self.free);
        if free != accepted & u64::from(self.open) {
            return None;
        }
        Some(free as u8)
    }
}
