//! The labels of a stage, for either objective.

ghost use Rattle.std.specs.Prelude.{◌≡◌, ◌+◌, ◌*◌, ◌<◌, ◌≤◌, [], ◌∷◌, length, IfOk, IfSome, OnOk};
ghost use Rattle.cps_base.specs.Tally.{raised_by};
ghost use Rattle.cps_theory.specs.Network.{Undominated};
ghost use Rattle.landing_rules.specs.Rules.{last_second};
ghost use Rattle.landing_rules.specs.Problem.{Problem};
ghost use Rattle.cps_nodes.specs.Windows.{IsWidth};
ghost use Rattle.cps_network.specs.Landable.{Attains, HasEachLandable};
ghost use Rattle.cps_network.specs.Pairs.{AreCosts, GivesPair, list_at, pair_at};
ghost use Rattle.cps_network.specs.Permits.{IsNextOf};
ghost use Rattle.makespan_labels.specs.Labels.{no_label, AreLabels};
ghost use Rattle.makespan_labels.specs.LabelPairs.{column_pairs};
ghost use Rattle.replan.specs.Labels.{AreLandableOf, HoldsPairs, last_pair, worth};
ghost use Rattle.replan.specs.WindowNodes.{extremes};

use crate::planning::Planning;
use cps_base::{Ledger, Steps};
use cps_network::{Stage, prefix_laws};
use cps_nodes::Window;
use cps_outside::Gate;
use cps_problem::{Objective, Problem};
use delay_labels::{Costs, fill_costs, fill_costs_alone, source_pair};
use makespan_labels::{Column, NO_LABEL, fill, fill_alone, source_of};
use std::alloc::{AllocError, Global};
use std::marker::Model;
use std::thread::Threads;

/// The labels of a stage, by the objective.
#[derive(Drop)]
pub(crate) enum ByObjective {
    /// For the makespan: the least second of each window.
    OfColumn(Column),
    /// For the weighted delay: the pairs of each window.
    OfCosts(Costs),
}

/// The labels of the windows of a stage, in their order. For either objective contracts see a list of pairs for each window:
/// for the makespan its label with the cost 0, and no pair where it has no label.
#[derive(Drop)]
pub(crate) struct Labels {
    kept: ByObjective,
}

impl Model for Labels {
    ghost use Rattle.replan.specs.Labels.{StagePairs, pairs_of};

    ghost Value = { StagePairs };

    ghost view = { λ labels. pairs_of labels.kept };
}

// A column of as many entries as a stage has windows.
fn column_for<const W: usize>(alloc: Global, stage: &Stage<W>) -> Result<Column, AllocError>
    ensures { IfOk result (λ column. length column ≡ length stage.now.1) }
{
    let mut column = Column::new(alloc);
    column.reserve(stage.len())?;
    Ok(column)
}

impl Labels {
    // The labels of stage 0: one list with the one pair (0, 0), whose second no rule reads as a landing.
    pub(crate) fn start(alloc: Global, objective: Objective) -> Result<Labels, AllocError>
        ensures { IfOk result (λ labels. labels
            ≡ record { objective = objective; lists = ((0, 0) ∷ []) ∷ [] }) }
    {
        match objective {
            Objective::Makespan => {
                let column = Column::start(alloc)?;
                Ok(Labels {
                    kept: ByObjective::OfColumn(column),
                })
            }
            Objective::Delay => {
                let costs = Costs::start(alloc)?;
                Ok(Labels {
                    kept: ByObjective::OfCosts(costs),
                })
            }
        }
    }

    // What is left of a column where the stage keeps its landable windows alone.
    fn left_of_column<const W: usize>(
        mut column: Column,
        stage: &mut Stage<W>,
    ) -> Result<Labels, AllocError>
        requires width { IsWidth W }
        requires one_each { length column ≡ length stage.old.1 }
        ensures { IfOk result (λ labels. (p : Problem) → p.objective ≡ Objective.Makespan
            → HasEachLandable p stage.old → AreLabels p stage.old column
            → AreLandableOf p stage.old stage.new labels) }
    {
        column.keep_landable(stage);
        Ok(Labels {
            kept: ByObjective::OfColumn(column),
        })
    }

    // The same of pairs.
    fn left_of_costs<const W: usize>(
        mut costs: Costs,
        stage: &mut Stage<W>,
    ) -> Result<Labels, AllocError>
        requires width { IsWidth W }
        requires one_each { length costs ≡ length stage.old.1 }
        ensures { IfOk result (λ labels. (p : Problem) → p.objective ≡ Objective.Delay
            → HasEachLandable p stage.old → AreCosts p stage.old costs
            → AreLandableOf p stage.old stage.new labels) }
    {
        costs.keep_landable(stage);
        Ok(Labels {
            kept: ByObjective::OfCosts(costs),
        })
    }

    // How many lists there are.
    pub(crate) fn len(&self) -> usize
        ensures { result ≡ length self.now.lists }
    {
        match &self.kept {
            ByObjective::OfColumn(column) => column.len(),
            ByObjective::OfCosts(costs) => costs.len(),
        }
    }

    // How many pairs the list at place i has.
    pub(crate) fn count(&self, i: usize) -> usize
        requires { i < length self.now.lists }
        ensures { result ≡ length (list_at self.now.lists i) }
    {
        match &self.kept {
            ByObjective::OfColumn(column) => (column.label(i) < NO_LABEL) as usize,
            ByObjective::OfCosts(costs) => costs.count(i),
        }
    }

    // The pair at index j of the list at place i.
    pub(crate) fn pair(&self, i: usize, j: usize) -> (u32, u32)
        requires place { i < length self.now.lists }
        requires index { j < length (list_at self.now.lists i) }
        ensures value { result ≡ pair_at (list_at self.now.lists i) j }
        ensures known { result.0 < no_label }
        ensures in_days { result.0 ≤ last_second }
    {
        match &self.kept {
            ByObjective::OfColumn(column) => (column.label(i), 0),
            ByObjective::OfCosts(costs) => costs.pair(i, j),
        }
    }

    // The second of the first pair of the list at place i, and the cost of the last one.
    #[inline]
    pub(crate) fn extremes(&self, i: usize) -> (u32, u32)
        requires place { i < length self.now.lists }
        requires some { 0 < length (list_at self.now.lists i) }
        ensures value { result ≡ extremes (list_at self.now.lists i) }
        ensures in_days { result.0 ≤ last_second }
    {
        let last = self.count(i) - 1;
        (self.pair(i, 0).0, self.pair(i, last).1)
    }

    // The column, for the makespan.
    pub(crate) fn column(&self) -> Option<&Column>
        ensures { IfSome result (λ column. self.now.lists ≡ column_pairs column.now) }
    {
        match &self.kept {
            ByObjective::OfColumn(column) => Some(column),
            ByObjective::OfCosts(_) => None,
        }
    }

    // What the last pair of the list at place i is worth: the least second or the least cost of the window there.
    pub(crate) fn value(&self, i: usize) -> u32
        requires place { i < length self.now.lists }
        requires some { 0 < length (list_at self.now.lists i) }
        ensures { result ≡ worth self.now.objective (last_pair (list_at self.now.lists i)) }
    {
        match &self.kept {
            ByObjective::OfColumn(column) => column.label(i),
            ByObjective::OfCosts(costs) => costs.pair(i, costs.count(i) - 1).1,
        }
    }

    // The labels of the next stage, from those of this one. Of its candidates `stage` keeps only the landable windows. It ticks
    // once for each candidate.
    pub(crate) fn next<const W: usize, R: Threads + Sync, G: Gate + Sync, L: Ledger>(
        &self,
        planning: &Planning<R, G>,
        before: &Stage<W>,
        stage: &mut Stage<W>,
        steps: &mut Steps<L>,
    ) -> Result<Labels, AllocError>
        requires width { W ≡ 2 * planning.now.problem.now.k + 1 }
        requires before { HoldsPairs planning.now.problem.now before.now self.now }
        requires number { stage.old.0 ≡ before.now.0 + 1 }
        requires next { IsNextOf planning.now.problem.now before.now.0 before.now.1 stage.old.1 }
        ensures left { IfOk result (AreLandableOf planning.now.problem.now stage.old stage.new) }
        ensures steps { OnOk result (L.count steps.new ≡ raised_by (length stage.old.1)
            (L.count steps.old)) }
    {
        let problem = planning.problem;
        // k is at most 3.
        let _near = problem.head();
        match &self.kept {
            ByObjective::OfColumn(labels) => {
                let mut column = column_for(planning.alloc, stage)?;
                fill(
                    planning.rt,
                    problem,
                    before,
                    labels,
                    stage,
                    &mut column,
                    planning.gate,
                    steps,
                );
                let left = Labels::left_of_column(column, stage)?;
                Ok(left)
            }
            ByObjective::OfCosts(labels) => {
                let costs = fill_costs(
                    planning.rt,
                    planning.alloc,
                    problem,
                    before,
                    labels,
                    stage,
                    planning.gate,
                    steps,
                )?;
                let left = Labels::left_of_costs(costs, stage)?;
                Ok(left)
            }
        }
    }

    // As `next`, but on the caller's thread, and it ticks nothing.
    pub(crate) fn next_alone<const W: usize>(
        &self,
        alloc: Global,
        problem: &Problem,
        before: &Stage<W>,
        stage: &mut Stage<W>,
    ) -> Result<Labels, AllocError>
        requires width { W ≡ 2 * problem.now.k + 1 }
        requires before { HoldsPairs problem.now before.now self.now }
        requires number { stage.old.0 ≡ before.now.0 + 1 }
        requires next { IsNextOf problem.now before.now.0 before.now.1 stage.old.1 }
        ensures { IfOk result (AreLandableOf problem.now stage.old stage.new) }
    {
        // k is at most 3.
        let _near = problem.head();
        match &self.kept {
            ByObjective::OfColumn(labels) => {
                let mut column = column_for(alloc, stage)?;
                fill_alone(problem, before, labels, stage, &mut column);
                let left = Labels::left_of_column(column, stage)?;
                Ok(left)
            }
            ByObjective::OfCosts(labels) => {
                let costs = fill_costs_alone(alloc, problem, before, labels, stage)?;
                let left = Labels::left_of_costs(costs, stage)?;
                Ok(left)
            }
        }
    }

    // The place of a window of this stage, and the index of a pair of it, that give this pair to a window of the next stage.
    pub(crate) fn source<const W: usize>(
        &self,
        problem: &Problem,
        before: &Stage<W>,
        node: &Window<W>,
        pair: (u32, u32),
    ) -> (usize, usize)
        requires width { W ≡ 2 * problem.now.k + 1 }
        requires before { HoldsPairs problem.now before.now self.now }
        requires number { before.now.0 < length problem.now.flights }
        requires undominated { Undominated (Attains problem.now (before.now.0 + 1) node.now) pair }
        requires known { pair.0 < no_label }
        ensures { GivesPair problem.now before.now self.now.lists node.now pair result.0 result.1 }
    {
        prefix_laws::<W>(problem);
        match &self.kept {
            ByObjective::OfColumn(column) => {
                (source_of(problem, before, column, node, pair.0), 0)
            }
            ByObjective::OfCosts(costs) => {
                source_pair(problem, before, costs, node, pair.0, pair.1)
            }
        }
    }
}
