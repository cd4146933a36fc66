//! A stage with the pairs that complete its nodes.

ghost use Rattle.std.specs.Prelude.{◌≡◌, ◌<◌, ◌≤◌, length, IfOk};
ghost use Rattle.cps_theory.specs.Labels.{InPairs, Pair};
ghost use Rattle.cps_network.specs.Pairs.{list_at};
ghost use Rattle.first_best.specs.Completing.{no_stage, Rises};
ghost use Rattle.first_best.specs.Nodes.{node_at};

use crate::node::EarlyNode;
use crate::pairs::PairList;
use replan::WindowNodes;
use std::alloc::{AllocError, Global};
use std::marker::Model;

/// The nodes of a stage, the pairs that complete each, and the place of the node of each window.
#[derive(Drop)]
pub(crate) struct StageAhead {
    pub(crate) nodes: Vec<EarlyNode>,
    pub(crate) lists: Vec<PairList>,
    pub(crate) windows: WindowNodes,
}

impl Model for StageAhead {
    ghost use Rattle.first_best.specs.Completing as completing;

    ghost Value = { completing.StageAhead };

    ghost view = { λ s. record {
      nodes = s.nodes.items;
      lists = s.lists.items;
      places = s.windows.places;
    } };
}

impl StageAhead {
    // The stage without a node.
    pub(crate) fn new(alloc: Global) -> Result<StageAhead, AllocError>
        ensures { IfOk result (λ s. s ≡ no_stage) }
    {
        let windows = WindowNodes::new(alloc)?;
        Ok(StageAhead {
            nodes: Vec::new(alloc),
            lists: Vec::new(alloc),
            windows,
        })
    }

    // How many nodes it has.
    pub(crate) fn len(&self) -> usize
        ensures { result ≡ length self.now.nodes }
    {
        self.nodes.len()
    }

    // The node at place j.
    pub(crate) fn node(&self, j: usize) -> EarlyNode
        requires { j < length self.now.nodes }
        ensures { result ≡ node_at self.now.nodes j }
    {
        self.nodes[j]
    }

    // The pairs of the node at place j.
    pub(crate) fn list(&self, j: usize) -> &PairList
        requires { j < length self.now.lists }
        ensures { result.now ≡ list_at self.now.lists j }
    {
        &self.lists[j]
    }

    // A second behind which no pair of the node at place j is.
    pub(crate) fn latest(&self, j: usize) -> u32
        requires place { j < length self.now.lists }
        requires rising { Rises (list_at self.now.lists j) }
        ensures { (q : Pair) → InPairs q (list_at self.now.lists j) → q.0 ≤ result }
    {
        self.list(j).latest()
    }
}
