//! The labels of a stage, from those of the stage before.

ghost use Rattle.std.specs.Prelude.{◌≡◌, ◌+◌, ◌*◌, ◌<◌, ◌≤◌, List, ℕ, length, IfSome};
ghost use Rattle.cps_base.specs.Tally.{raised_by};
ghost use Rattle.cps_nodes.specs.Windows.{IsWidth};
ghost use Rattle.cps_network.specs.Landable.{HasEachLandable};
ghost use Rattle.cps_network.specs.Lists.{node_at};
ghost use Rattle.cps_network.specs.Permits.{IsNextOf};
ghost use Rattle.cps_network.specs.shared.LeadingWindows.{Sources};
ghost use Rattle.landing_rules.specs.Problem as rules;
ghost use Rattle.makespan_labels.specs.Columns.{IsEntry, IsLeastOf};
ghost use Rattle.makespan_labels.specs.Entries.{IsLabelAt};
ghost use Rattle.makespan_labels.specs.Labellings.{CanLabel};
ghost use Rattle.makespan_labels.specs.Labels.{AreLabels, HoldsLabels};

use crate::column::{Column, NO_LABEL};
use cps_base::{Ledger, Steps};
use cps_network::{Links, Stage, last_rank, prefix_laws, sources};
use cps_nodes::window_laws;
use cps_outside::Gate;
use cps_problem::Problem;
use label_workers::fill_numbers;
use stage_landings::StageLandings;
use std::thread::Threads;

// The half-open range of the windows of the stage before that lead to the window at place i of a stage. The links tell it, and
// without them it is searched.
fn range_before<const W: usize>(
    before: &Stage<W>,
    stage: &Stage<W>,
    links: Option<&Links<W>>,
    i: usize,
) -> (usize, usize)
    requires width { IsWidth W }
    requires links { IfSome links (λ l. (l.now.origin ≡ before.now.1) × (l.now.target ≡ stage.now.1)) }
    requires within { i < length stage.now.1 }
    ensures { (p : rules.Problem) (labels : List ℕ) → CanLabel p W before.now labels stage.now
        → Sources p W before.now.0 before.now.1 (node_at stage.now.1 i) result.0 result.1 }
{
    match links {
        Some(links) => {
            let range = &links.ranges()[links.places()[i] as usize];
            (range.0 as usize, range.1 as usize)
        }
        None => sources(before, &stage.node(i)),
    }
}

// The least label at the places of a range that is not empty.
fn least_of(labels: &Column, from: usize, to: usize) -> u32
    requires range { (from < to) × (to ≤ length labels.now) }
    ensures least { IsLeastOf labels.now from to result }
    ensures range { IsEntry result }
{
    (from + 1..to).fold(labels.label(from), |least, i| least.min(labels.label(i)))
}

// The label of the window at place i of a stage, whose landings are at hand: where the last rank of the window lands behind the
// least label of the windows that lead to it, in all of which one rank landed last.
fn label<const W: usize>(
    landings: &StageLandings<'_>,
    before: &Stage<W>,
    labels: &Column,
    stage: &Stage<W>,
    links: Option<&Links<W>>,
    i: usize,
) -> u32
    requires can { CanLabel landings.now.problem W before.now labels.now stage.now }
    requires number { landings.now.number ≡ stage.now.0 }
    requires width { IsWidth W }
    requires links { IfSome links (λ l. (l.now.origin ≡ before.now.1) × (l.now.target ≡ stage.now.1)) }
    requires within { i < length stage.now.1 }
    ensures { IsLabelAt landings.now.problem stage.now i result }
{
    let (from, to) = range_before(before, stage, links, i);
    let least = least_of(labels, from, to);
    let leader = last_rank(&before.node(from), before.number());
    let rank = last_rank(&stage.node(i), stage.number());
    landings
        .landing_after(leader, least, rank)
        .unwrap_or(NO_LABEL)
}

/// Writes the labels of a stage: for each window the least second at which a legal prefix that ends in it can land its last
/// flight, or `NO_LABEL` exactly where there is none. All are written by the caller's thread.
///
/// The stage before holds the landable windows with their labels, and this stage the windows that extend one of them by a
/// permitted rank.
pub fn fill_alone<const W: usize>(
    problem: &Problem,
    before: &Stage<W>,
    labels: &Column,
    stage: &Stage<W>,
    into: &mut Column,
)
    requires width { W ≡ 2 * problem.now.k + 1 }
    requires before { HoldsLabels problem.now before.now labels.now }
    requires number { stage.now.0 ≡ before.now.0 + 1 }
    requires next { IsNextOf problem.now before.now.0 before.now.1 stage.now.1 }
    requires one_each { length into.old ≡ length stage.now.1 }
    ensures labels { AreLabels problem.now stage.now into.new }
    ensures landable { HasEachLandable problem.now stage.now }
{
    // k is at most 3.
    let _near = problem.head();
    prefix_laws::<W>(problem);
    window_laws::<W>();
    let landings = StageLandings::of(problem, stage.number());
    let links = stage.links(before);
    let entries = into.entries.as_mut_slice();
    for i in 0..entries.len() {
        entries[i] = label(&landings, before, labels, stage, links, i);
    }
}

/// The same as `fill_alone`, by pieces that may run at once, each behind the gate, and it ticks once a window. The ticks are
/// the caller's thread's own.
pub fn fill<const W: usize, R: Threads + Sync, G: Gate + Sync, L: Ledger>(
    rt: &R,
    problem: &Problem,
    before: &Stage<W>,
    labels: &Column,
    stage: &Stage<W>,
    into: &mut Column,
    gate: &G,
    steps: &mut Steps<L>,
)
    requires width { W ≡ 2 * problem.now.k + 1 }
    requires before { HoldsLabels problem.now before.now labels.now }
    requires number { stage.now.0 ≡ before.now.0 + 1 }
    requires next { IsNextOf problem.now before.now.0 before.now.1 stage.now.1 }
    requires one_each { length into.old ≡ length stage.now.1 }
    ensures labels { AreLabels problem.now stage.now into.new }
    ensures landable { HasEachLandable problem.now stage.now }
    ensures steps { L.count steps.new ≡ raised_by (length stage.now.1) (L.count steps.old) }
{
    // k is at most 3.
    let _near = problem.head();
    prefix_laws::<W>(problem);
    window_laws::<W>();
    let table = StageLandings::of(problem, stage.number());
    let landings = &table;
    let links = stage.links(before);
    let label_at = move |i: usize| -> u32
        requires { CanLabel landings.now.problem W before.now labels.now stage.now
            × (landings.now.number ≡ stage.now.0) × IsWidth W
            × IfSome links (λ l. (l.now.origin ≡ before.now.1) × (l.now.target ≡ stage.now.1))
            × (i < length stage.now.1) }
        ensures { IsLabelAt landings.entry.now.problem stage.entry.now i result }
    { label(landings, before, labels, stage, links, i) };
    let windows = stage.len();
    fill_numbers(rt, into.entries.as_mut_slice(), gate, &label_at);
    steps.tick(windows as u64);
}
