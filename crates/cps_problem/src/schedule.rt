ghost use Rattle.std.specs.Prelude.{◌≡◌, ◌-◌, ◌≤◌, length, nat_eq, slice_index, slice_set};
ghost use Rattle.cps_base.specs.Limits.{most_waiting};

use std::marker::Model;

/// A landing second for each rank, the first of rank 1. Contracts see the list of them.
#[derive(Drop)]
pub struct Schedule {
    seconds: Vec<u32>,
}

impl Model for Schedule {
    ghost use Rattle.std.specs.Prelude.{List, ℕ, length, ◌≤◌};
    ghost use Rattle.cps_base.specs.Limits.{most_waiting};

    ghost Value = { List ℕ };

    ghost view = { λ s. s.seconds.items };

    ghost invariant = { λ s. length s.seconds.items ≤ most_waiting };
}

impl Schedule {
    /// The schedule of these seconds, at most `MOST_WAITING`.
    pub fn of(seconds: Vec<u32>) -> Schedule
        requires { length seconds.items ≤ most_waiting }
        ensures { result ≡ seconds.items }
    {
        Schedule { seconds }
    }

    /// The number of ranks: 0 to `MOST_WAITING`.
    pub fn len(&self) -> usize
        ensures value { result ≡ length self.now }
        ensures few { result ≤ most_waiting }
    {
        self.seconds.len()
    }

    /// Whether it has no rank.
    pub fn is_empty(&self) -> bool
        ensures { result ≡ nat_eq (length self.now) 0 }
    {
        self.seconds.is_empty()
    }

    /// The second of a rank.
    pub fn second(&self, rank: u8) -> u32
        requires { (1 ≤ rank) × (rank ≤ length self.now) }
        ensures { result ≡ slice_index self.now (rank - 1) }
    {
        self.seconds[rank as usize - 1]
    }

    /// Lands a rank at a second, and no other rank elsewhere.
    pub fn set(&mut self, rank: u8, second: u32)
        requires { (1 ≤ rank) × (rank ≤ length self.old) }
        ensures { self.new ≡ slice_set self.old (rank - 1) second }
    {
        self.seconds[rank as usize - 1] = second;
    }
}
