//! The windows of a stage, put together by node.

ghost use Rattle.std.specs.Prelude.{◌≡◌, ◌/◌, ◌<◌, ◌≤◌, ◌↔◌, [], length, IfOk, IsTrue};
ghost use Rattle.cps_base.specs.Limits.{most_waiting};
ghost use Rattle.replan.specs.WindowNodes.{ArePutTogether, AreSame, IsKeptOrPut, IsNew, IsSeenAt, renumbered};

use cps_network::{Node, Stage, placed_node};
use std::alloc::{AllocError, Global};
use std::marker::Model;
use std::sync::Arc;

/// The windows of a stage, put together by node: windows are of one node where they place the same ranks, and the same one
/// last. Stages with the same windows share it.
///
/// Contracts see its stage, the place of the node of each window, and the place of the first window of each node.
#[derive(Drop)]
pub struct WindowNodes {
    stage: u8,
    places: Arc<Vec<usize>, Global>,
    firsts: Arc<Vec<usize>, Global>,
}

impl Model for WindowNodes {
    ghost use Rattle.std.specs.Arc.{arc_value};
    ghost use Rattle.replan.specs.WindowNodes as together;

    ghost Value = { together.WindowNodes };

    ghost view = { λ n. record {
      stage = n.stage;
      places = (arc_value n.places).items;
      firsts = (arc_value n.firsts).items;
    } };
}

impl WindowNodes {
    // Of a stage, with these places.
    fn of(
        alloc: Global,
        stage: u8,
        places: Vec<usize>,
        firsts: Vec<usize>,
    ) -> Result<WindowNodes, AllocError>
        ensures stage { IfOk result (λ n. n.stage ≡ stage) }
        ensures places { IfOk result (λ n. n.places ≡ places.items) }
        ensures firsts { IfOk result (λ n. n.firsts ≡ firsts.items) }
    {
        let places = Arc::new(alloc, places)?;
        let firsts = Arc::new(alloc, firsts)?;
        Ok(WindowNodes {
            stage,
            places,
            firsts,
        })
    }

    /// Of no stage: to begin with, before the nodes of a stage are asked for.
    pub fn new(alloc: Global) -> Result<WindowNodes, AllocError>
        ensures stage { IfOk result (λ n. n.stage ≡ 0) }
        ensures places { IfOk result (λ n. n.places ≡ []) }
        ensures firsts { IfOk result (λ n. n.firsts ≡ []) }
    {
        let nodes = WindowNodes::of(alloc, 0, Vec::new(alloc), Vec::new(alloc))?;
        Ok(nodes)
    }

    /// The same once more, which shares its places.
    pub fn share(&self) -> Result<WindowNodes, AllocError>
        ensures { IfOk result (λ n. n ≡ self.now) }
    {
        let nodes = self.share_as(self.stage)?;
        Ok(nodes)
    }

    // The same for another stage.
    pub(crate) fn share_as(&self, stage: u8) -> Result<WindowNodes, AllocError>
        ensures { IfOk result (λ n. n ≡ renumbered self.now stage) }
    {
        let places = Arc::try_clone(&self.places)?;
        let firsts = Arc::try_clone(&self.firsts)?;
        Ok(WindowNodes {
            stage,
            places,
            firsts,
        })
    }

    /// The number of the stage, and 0 for none.
    pub fn stage(&self) -> u8
        ensures { result ≡ self.now.stage }
    {
        self.stage
    }

    /// The place of the node of each window, from 0 on.
    pub fn places(&self) -> &[usize]
        ensures { result.now ≡ self.now.places }
    {
        self.places.as_slice()
    }

    /// The place of the first window of each node, from 0 on.
    pub fn firsts(&self) -> &[usize]
        ensures { result.now ≡ self.now.firsts }
    {
        self.firsts.as_slice()
    }
}

// How many places at which to look first there are: windows of seven places have 64 patterns, and 7 last offsets.
const HINTS: usize = 512;

// Where the place of a node is noted. Only speed rests on it: the nodes of a stage mostly differ in it.
fn hint_of(node: Node, stage: u8) -> usize
    requires { stage ≤ most_waiting }
    ensures { result < HINTS }
{
    let pattern = (node.placed >> stage.saturating_sub(2)) % 64;
    pattern as usize * 8 + usize::from(node.last % 8)
}

// Whether two nodes place the same ranks, and the same one last.
fn is_same(a: Node, b: Node) -> bool
    ensures { IsTrue result ↔ AreSame a b }
{
    a.placed == b.placed && a.last == b.last
}

// Where a node stands among others, and how many they are where it does not. The place `near` is tried first.
#[inline]
fn place_of(nodes: &[Node], node: Node, near: usize) -> usize
    ensures within { result ≤ length nodes.now }
    ensures there { result < length nodes.now → IsSeenAt nodes.now node result }
    ensures none { result ≡ length nodes.now → IsNew nodes.now node }
{
    if near < nodes.len() && is_same(nodes[near], node) {
        return near;
    }
    let place = nodes.iter().position(|other| is_same(*other, node));
    place.unwrap_or(nodes.len())
}

// The place of the node of the window at place i among the nodes of the windows before it, behind which it is put where it is
// new.
#[inline]
fn keep_or_put(
    nodes: &mut Vec<Node>,
    firsts: &mut Vec<usize>,
    node: Node,
    i: usize,
    near: usize,
) -> Result<usize, AllocError>
    ensures { IfOk result (λ place. IsKeptOrPut nodes.old.items nodes.new.items
        firsts.old.items firsts.new.items node i place) }
{
    let place = place_of(nodes.as_slice(), node, near);
    if place == nodes.len() {
        nodes.push(node)?;
        firsts.push(i)?;
    }
    Ok(place)
}

/// The windows of a stage, put together by node.
pub(crate) fn together<const W: usize>(
    alloc: Global,
    stage: &Stage<W>,
) -> Result<WindowNodes, AllocError>
    requires { stage.now.0 ≤ most_waiting }
    ensures stage { IfOk result (λ n. n.stage ≡ stage.now.0) }
    ensures together { IfOk result (λ n. ArePutTogether stage.now.0 stage.now.1
        (length stage.now.1) n.places n.firsts) }
{
    let number = stage.number();
    let mut nodes = Vec::new(alloc);
    let mut firsts = Vec::new(alloc);
    let mut places = Vec::with_capacity(alloc, stage.len())?;
    let mut near = [0usize; HINTS];
    for i in 0..stage.len() {
        let node = placed_node(&stage.node(i), number);
        let hint = hint_of(node, number);
        let place = keep_or_put(&mut nodes, &mut firsts, node, i, near[hint])?;
        near[hint] = place;
        places.push(place)?;
    }
    let nodes = WindowNodes::of(alloc, number, places, firsts)?;
    Ok(nodes)
}

// Whether two stages have the same windows, and are behind the first k flights: windows that are of one node at the one stage
// are then so at the other.
fn have_one_list<const W: usize>(stage: &Stage<W>, other: &Stage<W>) -> bool
    ensures near { IsTrue result → W / 2 ≤ stage.now.0 }
    ensures other_near { IsTrue result → W / 2 ≤ other.now.0 }
    ensures same { IsTrue result → stage.now.1 ≡ other.now.1 }
{
    let k = W / 2;
    if usize::from(stage.number()) < k || usize::from(other.number()) < k {
        return false;
    }
    stage.windows() == other.windows()
}

/// As `together`, where those of another stage are at hand: where both stages have the same windows, they share them.
pub(crate) fn together_again<const W: usize>(
    alloc: Global,
    stage: &Stage<W>,
    other: &Stage<W>,
    former: &WindowNodes,
) -> Result<WindowNodes, AllocError>
    requires stage { stage.now.0 ≤ most_waiting }
    requires former { ArePutTogether other.now.0 other.now.1 (length other.now.1)
        former.now.places former.now.firsts }
    ensures stage { IfOk result (λ n. n.stage ≡ stage.now.0) }
    ensures together { IfOk result (λ n. ArePutTogether stage.now.0 stage.now.1
        (length stage.now.1) n.places n.firsts) }
{
    // The windows of a stage are windows of W places.
    let _valid = stage.windows();
    if have_one_list(stage, other) {
        let nodes = former.share_as(stage.number())?;
        return Ok(nodes);
    }
    let nodes = together(alloc, stage)?;
    Ok(nodes)
}
