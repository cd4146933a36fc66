//! What is read of the stages that are held.

ghost use Rattle.std.specs.Prelude.{◌≡◌, ◌<◌, ◌≤◌, length, IfOk, MatchOption, Some, ⊤};
ghost use Rattle.cps_base.specs.Limits.{most_waiting};
ghost use Rattle.landing_rules.specs.Problem.{Problem};
ghost use Rattle.landing_rules.specs.Rules.{last_second};
ghost use Rattle.cps_network.specs.Nodes.{latest};
ghost use Rattle.cps_network.specs.Pairs.{pair_at};
ghost use Rattle.cps_network.specs.WindowRanks.{TellsPlaced};
ghost use Rattle.replan.specs.Held.{IsHeld};
ghost use Rattle.replan.specs.Kept.{k_of, held_of, problem_held};
ghost use Rattle.replan.specs.Readers.{stages_in, stage_in, window_in, pairs_in, IsReadable, HasPlace, AreStagesOf};
ghost use Rattle.replan.specs.WindowNodes.{AreInDays, AreLeastIn, AreNodesOf, AreNodesOfSome};

use crate::least_pairs::least_pairs;
use crate::window_nodes::{together, together_again};
use crate::{AnyKept, Kept, WindowNodes};
use cps_network::{Node, placed_node};
use std::alloc::{AllocError, Global};

impl<const W: usize> Kept<W> {
    // The number of the last stage.
    fn stages(&self) -> u8
        ensures value { result ≡ stages_in self.now }
        ensures few { result ≤ most_waiting }
        ensures held { MatchOption self.now ⊤ (IsHeld W) }
    {
        match &self.held {
            None => 0,
            Some(held) => held.problem.len(),
        }
    }

    // How many windows a stage has.
    fn size(&self, stage: u8) -> usize
        requires { IsReadable self.now stage }
        ensures { result ≡ length (stage_in self.now stage).1 }
    {
        match &self.held {
            None => 0,
            Some(held) => {
                let labelled = &held.stages[stage as usize];
                labelled.stage.len()
            }
        }
    }

    // The ranks that the window at place i of a stage places, and the last of them.
    fn node(&self, stage: u8, i: usize) -> Node
        requires stage { IsReadable self.now stage }
        requires place { HasPlace self.now stage i }
        ensures placed { TellsPlaced (window_in self.now stage i) stage result.placed }
        ensures last { result.last ≡ latest (stage, window_in self.now stage i) }
    {
        match &self.held {
            None => Node { placed: 0, last: 0 },
            Some(held) => {
                // At most `MOST_WAITING` flights wait, so that the stage is one up to `MOST_WAITING`.
                let _few = held.problem.len();
                let labelled = &held.stages[stage as usize];
                placed_node(&labelled.stage.node(i), stage)
            }
        }
    }

    // How many pairs the window at place i of a stage has.
    fn label_count(&self, stage: u8, i: usize) -> usize
        requires stage { IsReadable self.now stage }
        requires place { HasPlace self.now stage i }
        ensures { result ≡ length (pairs_in self.now stage i) }
    {
        match &self.held {
            None => 0,
            Some(held) => {
                let labelled = &held.stages[stage as usize];
                labelled.labels.count(i)
            }
        }
    }

    // The pair at index j of the window at place i of a stage.
    fn label(&self, stage: u8, i: usize, j: usize) -> (u32, u32)
        requires stage { IsReadable self.now stage }
        requires place { HasPlace self.now stage i }
        requires index { j < length (pairs_in self.now stage i) }
        ensures value { result ≡ pair_at (pairs_in self.now stage i) j }
        ensures in_days { result.0 ≤ last_second }
    {
        match &self.held {
            None => (0, 0),
            Some(held) => {
                let labelled = &held.stages[stage as usize];
                labelled.labels.pair(i, j)
            }
        }
    }

    // The windows of a stage, put together by node, where those of another stage are at hand.
    fn nodes(
        &self,
        alloc: Global,
        stage: u8,
        former: &WindowNodes,
    ) -> Result<WindowNodes, AllocError>
        requires stage { IsReadable self.now stage }
        requires former { AreNodesOfSome self.now former.now }
        ensures { IfOk result (AreNodesOf self.now stage) }
    {
        match &self.held {
            None => unreachable!(),
            Some(held) => {
                // At most `MOST_WAITING` flights wait, so that the stage is one up to `MOST_WAITING`.
                let _few = held.problem.len();
                let labelled = &held.stages[stage as usize];
                if former.stage() == 0 {
                    let nodes = together(alloc, &labelled.stage)?;
                    return Ok(nodes);
                }
                let other = &held.stages[former.stage() as usize];
                let nodes = together_again(alloc, &labelled.stage, &other.stage, former)?;
                Ok(nodes)
            }
        }
    }

    // For each node of a stage the least second and the least cost of the pairs of its windows.
    fn least_pairs(
        &self,
        alloc: Global,
        stage: u8,
        nodes: &WindowNodes,
    ) -> Result<Vec<(u32, u32)>, AllocError>
        requires stage { IsReadable self.now stage }
        requires nodes { AreNodesOf self.now stage nodes.now }
        ensures least { IfOk result (λ least. AreLeastIn self.now stage nodes.now least.items) }
        ensures in_days { IfOk result (λ least. AreInDays least.items) }
    {
        match &self.held {
            None => unreachable!(),
            Some(held) => {
                // At most `MOST_WAITING` flights wait, so that the stage is one up to `MOST_WAITING`.
                let _few = held.problem.len();
                let labelled = &held.stages[stage as usize];
                let least = least_pairs(alloc, &labelled.labels, nodes)?;
                Ok(least)
            }
        }
    }
}

impl AnyKept {
    /// How many stages it holds behind stage 0: as many as the problem that it holds has flights, and none with no problem
    /// held. The stages that may be read are 1 to this number.
    pub fn stages(&self) -> u8
        ensures value { result ≡ stages_in (held_of self.now) }
        ensures few { result ≤ most_waiting }

        // Of the problem that it holds these are the landable windows, none twice, with their undominated pairs.
        ensures held { (p : Problem) → problem_held self.now ≡ Some p
            → AreStagesOf p (held_of self.now) }
        ensures k { (p : Problem) → problem_held self.now ≡ Some p → p.k ≡ k_of self.now }
    {
        match self {
            AnyKept::One(kept) => kept.stages(),
            AnyKept::Three(kept) => kept.stages(),
            AnyKept::Five(kept) => kept.stages(),
            AnyKept::Seven(kept) => kept.stages(),
        }
    }

    /// How many landable windows a stage has.
    pub fn size(&self, stage: u8) -> usize
        requires { IsReadable (held_of self.now) stage }
        ensures { result ≡ length (stage_in (held_of self.now) stage).1 }
    {
        match self {
            AnyKept::One(kept) => kept.size(stage),
            AnyKept::Three(kept) => kept.size(stage),
            AnyKept::Five(kept) => kept.size(stage),
            AnyKept::Seven(kept) => kept.size(stage),
        }
    }

    /// The ranks that the window at place i of a stage, counted from 0, places, and the last of them.
    pub fn node(&self, stage: u8, i: usize) -> Node
        requires stage { IsReadable (held_of self.now) stage }
        requires place { HasPlace (held_of self.now) stage i }
        ensures placed { TellsPlaced (window_in (held_of self.now) stage i) stage result.placed }
        ensures last { result.last ≡ latest (stage, window_in (held_of self.now) stage i) }
    {
        match self {
            AnyKept::One(kept) => kept.node(stage, i),
            AnyKept::Three(kept) => kept.node(stage, i),
            AnyKept::Five(kept) => kept.node(stage, i),
            AnyKept::Seven(kept) => kept.node(stage, i),
        }
    }

    /// How many pairs of a second and a cost the window at place i of a stage has: one or more, and for the makespan one.
    pub fn label_count(&self, stage: u8, i: usize) -> usize
        requires stage { IsReadable (held_of self.now) stage }
        requires place { HasPlace (held_of self.now) stage i }
        ensures { result ≡ length (pairs_in (held_of self.now) stage i) }
    {
        match self {
            AnyKept::One(kept) => kept.label_count(stage, i),
            AnyKept::Three(kept) => kept.label_count(stage, i),
            AnyKept::Five(kept) => kept.label_count(stage, i),
            AnyKept::Seven(kept) => kept.label_count(stage, i),
        }
    }

    /// The pair at index j of the window at place i of a stage: a second, at most 172,799, and a cost, which for the makespan
    /// is 0.
    pub fn label(&self, stage: u8, i: usize, j: usize) -> (u32, u32)
        requires stage { IsReadable (held_of self.now) stage }
        requires place { HasPlace (held_of self.now) stage i }
        requires index { j < length (pairs_in (held_of self.now) stage i) }
        ensures value { result ≡ pair_at (pairs_in (held_of self.now) stage i) j }
        ensures in_days { result.0 ≤ last_second }
    {
        match self {
            AnyKept::One(kept) => kept.label(stage, i, j),
            AnyKept::Three(kept) => kept.label(stage, i, j),
            AnyKept::Five(kept) => kept.label(stage, i, j),
            AnyKept::Seven(kept) => kept.label(stage, i, j),
        }
    }

    /// The windows of a stage, put together by node. Where they are the same as those of another stage that were put together
    /// before, as mostly in the middle of a list, both share them: `former` is what this gave for another stage, or
    /// `WindowNodes::new`.
    pub fn nodes(
        &self,
        alloc: Global,
        stage: u8,
        former: &WindowNodes,
    ) -> Result<WindowNodes, AllocError>
        requires stage { IsReadable (held_of self.now) stage }
        requires former { AreNodesOfSome (held_of self.now) former.now }
        ensures { IfOk result (AreNodesOf (held_of self.now) stage) }
    {
        match self {
            AnyKept::One(kept) => kept.nodes(alloc, stage, former),
            AnyKept::Three(kept) => kept.nodes(alloc, stage, former),
            AnyKept::Five(kept) => kept.nodes(alloc, stage, former),
            AnyKept::Seven(kept) => kept.nodes(alloc, stage, former),
        }
    }

    /// For each node of a stage the least second, at most 172,799, and the least cost of the pairs of its windows. No one window
    /// need have both, and for the makespan each cost is 0.
    pub fn least_pairs(
        &self,
        alloc: Global,
        stage: u8,
        nodes: &WindowNodes,
    ) -> Result<Vec<(u32, u32)>, AllocError>
        requires stage { IsReadable (held_of self.now) stage }
        requires nodes { AreNodesOf (held_of self.now) stage nodes.now }
        ensures least { IfOk result (λ least.
            AreLeastIn (held_of self.now) stage nodes.now least.items) }
        ensures in_days { IfOk result (λ least. AreInDays least.items) }
    {
        match self {
            AnyKept::One(kept) => kept.least_pairs(alloc, stage, nodes),
            AnyKept::Three(kept) => kept.least_pairs(alloc, stage, nodes),
            AnyKept::Five(kept) => kept.least_pairs(alloc, stage, nodes),
            AnyKept::Seven(kept) => kept.least_pairs(alloc, stage, nodes),
        }
    }
}
