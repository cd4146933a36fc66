//! The pairs of a node.

ghost use Rattle.std.specs.Prelude.{◌≡◌, ◌≤◌, ◌⊎◌, [], All, IfOk, OnOk, true};
ghost use Rattle.cps_theory.specs.Labels.{InPairs};
ghost use Rattle.cps_theory.specs.UndominatedPairs.{sweep};
ghost use Rattle.landing_rules.specs.Rules.{last_second};
ghost use Rattle.replan.specs.Kept.{held_of};
ghost use Rattle.replan.specs.Readers.{pairs_in, IsReadable, HasPlace};
ghost use Rattle.std.specs.List.{list_all};
ghost use Rattle.certificate.specs.States.{is_pair, rises};
ghost use Rattle.cert_writer.specs.Gathered.{HasBetter, HasOnly, IsPairInRange, IsOfEither};

use replan::AnyKept;
use std::alloc::{AllocError, Global};
use std::marker::Model;

/// Pairs of a second and a cost, from windows of one node.
#[derive(Drop)]
pub(crate) struct NodePairs {
    pairs: Vec<(u32, u32)>,
}

impl Model for NodePairs {
    ghost use Rattle.std.specs.Prelude.{ℕ, List};

    ghost Value = { List (ℕ × ℕ) };

    ghost view = { λ n. n.pairs.items };
}

impl NodePairs {
    // No pair.
    pub(crate) fn new(alloc: Global) -> NodePairs
        ensures { result ≡ [] }
    {
        NodePairs {
            pairs: Vec::new(alloc),
        }
    }

    // One pair more. Where it is no worse or no better than the last of them, only one of the two stays: so the pairs of the
    // makespan, which cost nothing, take the room of one.
    pub(crate) fn keep(&mut self, pair: (u32, u32)) -> Result<(), AllocError>
        requires { pair.0 ≤ last_second }
        ensures found { OnOk result (HasOnly self.new (λ q. InPairs q self.old ⊎ (q ≡ pair))) }
        ensures covers { OnOk result (HasBetter self.new (λ q. InPairs q self.old ⊎ (q ≡ pair))) }
        ensures in_range { OnOk result (All IsPairInRange self.old → All IsPairInRange self.new) }
    {
        let len = self.pairs.len();
        if len > 0 {
            let last = self.pairs[len - 1];
            if last.0 <= pair.0 && last.1 <= pair.1 {
                return Ok(());
            }
            if pair.0 <= last.0 && pair.1 <= last.1 {
                self.pairs[len - 1] = pair;
                return Ok(());
            }
        }
        self.pairs.push(pair)?;
        Ok(())
    }

    // The pairs of the window at place i of a stage more.
    pub(crate) fn join(&mut self, kept: &AnyKept, stage: u8, i: usize) -> Result<(), AllocError>
        requires stage { IsReadable (held_of kept.now) stage }
        requires place { HasPlace (held_of kept.now) stage i }
        ensures found { OnOk result (HasOnly self.new
            (IsOfEither self.old (pairs_in (held_of kept.now) stage i))) }
        ensures covers { OnOk result (HasBetter self.new
            (IsOfEither self.old (pairs_in (held_of kept.now) stage i))) }
        ensures in_range { OnOk result (All IsPairInRange self.old → All IsPairInRange self.new) }
    {
        for j in 0..kept.label_count(stage, i) {
            self.keep(kept.label(stage, i, j))?;
        }
        Ok(())
    }

    // Those that no other is better than, ascending in second and falling in cost.
    pub(crate) fn best(&self, alloc: Global) -> Result<Vec<(u32, u32)>, AllocError>
        requires { All IsPairInRange self.now }
        ensures found { IfOk result (λ best. HasOnly best.items (λ q. InPairs q self.now)) }
        ensures covers { IfOk result (λ best. HasBetter best.items (λ q. InPairs q self.now)) }
        ensures rising { IfOk result (λ best. rises best.items ≡ true) }
        ensures in_range { IfOk result (λ best. list_all is_pair best.items ≡ true) }
    {
        let mut sorted = Vec::new(alloc);
        // Most slots of a stage have no pair.
        if self.pairs.is_empty() {
            return Ok(sorted);
        }
        sorted.extend_from_slice(self.pairs.as_slice())?;
        sorted.sort_unstable();
        let best = falling(alloc, sorted.as_slice())?;
        Ok(best)
    }
}

// Of pairs in order, those that are cheaper than all before them.
fn falling(alloc: Global, sorted: &[(u32, u32)]) -> Result<Vec<(u32, u32)>, AllocError>
    ensures { IfOk result (λ pairs. pairs.items ≡ sweep 4294967296 sorted.now) }
{
    let mut least = 1u64 << 32;
    let mut pairs = Vec::new(alloc);
    for pair in sorted {
        if u64::from(pair.1) < least {
            least = u64::from(pair.1);
            pairs.push(*pair)?;
        }
    }
    Ok(pairs)
}
