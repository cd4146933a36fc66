//! The pairs of a node.

ghost use Rattle.std.specs.Prelude.{◌≡◌, ℕ, ◌<◌, ◌≤◌, length, nat_lt};
ghost use Rattle.cps_theory.specs.Labels.{InPairs, Pair};
ghost use Rattle.cps_network.specs.Pairs.{pair_at};
ghost use Rattle.first_best.specs.Completing.{IsCostFrom, IsLeastOf, Rises};

use std::marker::Model;

/// Pairs of a second and a cost.
#[derive(Drop)]
pub(crate) struct PairList {
    pairs: Vec<(u32, u32)>,
}

impl Model for PairList {
    ghost use Rattle.std.specs.Prelude.{ℕ, List};

    ghost Value = { List (ℕ × ℕ) };

    ghost view = { λ l. l.pairs.items };
}

impl PairList {
    pub(crate) fn of(pairs: Vec<(u32, u32)>) -> PairList
        ensures { result ≡ pairs.items }
    {
        PairList { pairs }
    }

    pub(crate) fn len(&self) -> usize
        ensures { result ≡ length self.now }
    {
        self.pairs.len()
    }

    pub(crate) fn pair(&self, j: usize) -> (u32, u32)
        requires { j < length self.now }
        ensures { result ≡ pair_at self.now j }
    {
        self.pairs[j]
    }

    // The place of the first pair at or after a second, and their number where there is none.
    fn place_from(&self, second: u32) -> usize
        requires { Rises self.now }
        ensures within { result ≤ length self.now }
        ensures below { (i : ℕ) → i < result → (pair_at self.now i).0 < second }
        ensures late { result < length self.now → second ≤ (pair_at self.now result).0 }
    {
        self.pairs.partition_point(
            |pair: &(u32, u32)| -> bool
                ensures { result ≡ nat_lt pair.now.0 second }
            { pair.0 < second },
        )
    }

    // The least cost of a pair at or after a second.
    pub(crate) fn cost_from(&self, second: u32) -> Option<u32>
        requires { Rises self.now }
        ensures { IsLeastOf (IsCostFrom self.now second) result }
    {
        let place = self.place_from(second);
        if place < self.len() {
            Some(self.pair(place).1)
        } else {
            None
        }
    }

    // The second of the last pair, and 0 with none.
    pub(crate) fn latest(&self) -> u32
        requires { Rises self.now }
        ensures { (q : Pair) → InPairs q self.now → q.0 ≤ result }
    {
        let len = self.len();
        if len == 0 {
            return 0;
        }
        self.pair(len - 1).0
    }
}
