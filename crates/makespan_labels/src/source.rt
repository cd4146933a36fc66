//! Back from a label to a window of the stage before from which it comes.

ghost use Rattle.std.specs.Prelude.{◌≡◌, ℕ, ℤ, List, ◌+◌, ◌*◌, ◌<◌, Contains};
ghost use Rattle.cps_network.specs.Permits.{IsSuccessor};
ghost use Rattle.makespan_labels.specs.Labels.{no_label, IsLabel, HoldsLabels, GivesLabel};

use crate::column::Column;
use cps_network::{Stage, last_rank, prefix_laws, sources};
use cps_nodes::{Window, window_laws};
use cps_problem::Problem;

/// The first place of a stage whose window gives this label to a window of the next stage: by a permitted rank, that lands
/// at this second behind that window's own label.
///
/// The stage holds the landable windows with their labels, and the label is that of the window of the next stage, and known.
pub fn source_of<const W: usize>(
    problem: &Problem,
    before: &Stage<W>,
    labels: &Column,
    node: &Window<W>,
    label: u32,
) -> usize
    requires width { W ≡ 2 * problem.now.k + 1 }
    requires before { HoldsLabels problem.now before.now labels.now }
    requires node { (xs : List ℤ) × Contains before.now.1 xs
        × IsSuccessor problem.now before.now.0 xs node.now }
    requires label { IsLabel problem.now (before.now.0 + 1) node.now label }
    requires known { label < no_label }
    ensures gives { GivesLabel problem.now before.now labels.now node.now label result }
    ensures first { (place : ℕ) → place < result
        → GivesLabel problem.now before.now labels.now node.now label place → ⊥ }
{
    // k is at most 3.
    let _near = problem.head();
    prefix_laws::<W>(problem);
    window_laws::<W>();
    let (from, to) = sources(before, node);
    let leader = last_rank(&before.node(from), before.number());
    let rank = last_rank(node, before.number() + 1);
    (from..to)
        .find(|i| problem.landing_after(leader, labels.label(*i), rank) == Some(label))
        .unwrap_or(from)
}
