//! Lists of pairs of a second and a cost.

ghost use Rattle.std.specs.Prelude.{◌≡◌, ℕ, ◌<◌, ◌++◌, [], ◌∷◌, All, length, map, IfOk, OnOk, OnErr};
ghost use Rattle.cps_nodes.specs.Windows.{IsWidth};
ghost use Rattle.landing_rules.specs.Problem.{Problem};
ghost use Rattle.cps_network.specs.Landable.{HasEachLandable};
ghost use Rattle.cps_network.specs.Pairs.{list_at, pair_at, AreCosts, HoldsCosts};
ghost use Rattle.delay_labels.specs.Bounds.{IsInDays};
ghost use Rattle.delay_labels.specs.Lists.{has_some, known_of};

use cps_network::Stage;
use std::alloc::{AllocError, Global};
use std::marker::Model;

/// The pairs of the windows of a stage, a list for each, in the order of its windows. A pair is the second at which a prefix
/// lands its last flight, from 0 to 172,799, and what its waiting flights cost together. A window that is not landable has
/// the empty list.
#[derive(Drop)]
pub struct Costs {
    lists: Vec<Vec<(u32, u32)>>,
}

impl Model for Costs {
    ghost use Rattle.std.specs.Prelude.{ℕ, List, All, map};
    ghost use Rattle.delay_labels.specs.Bounds.{IsInDays};

    ghost Value = { List (List (ℕ × ℕ)) };

    ghost view = { λ costs. map (λ list. list.items) costs.lists.items };

    ghost invariant = { λ costs. All (λ list. All IsInDays list.items) costs.lists.items };
}

// Whether a list has a pair.
fn has_pair(list: &Vec<(u32, u32)>) -> bool
    ensures { result ≡ has_some list.now.items }
{
    !list.is_empty()
}

impl Costs {
    // These lists.
    pub(crate) fn of(lists: Vec<Vec<(u32, u32)>>) -> Costs
        requires { All (λ list. All IsInDays list.items) lists.items }
        ensures { result ≡ map (λ list. list.items) lists.items }
    {
        Costs { lists }
    }

    // No list, with room for so many.
    pub(crate) fn with_room(alloc: Global, lists: usize) -> Result<Costs, AllocError>
        ensures { IfOk result (λ costs. costs ≡ []) }
    {
        let lists = Vec::with_capacity(alloc, lists)?;
        Ok(Costs { lists })
    }

    /// The lists of stage 0: one list with the one pair (0, 0), whose second no rule reads as a landing.
    pub fn start(alloc: Global) -> Result<Costs, AllocError>
        ensures { IfOk result (λ costs. costs ≡ ((0, 0) ∷ []) ∷ []) }
    {
        let pairs = vec![in alloc; (0u32, 0u32); 1]?;
        let mut costs = Costs::with_room(alloc, 1)?;
        costs.push(pairs)?;
        Ok(costs)
    }

    /// How many lists there are.
    pub fn len(&self) -> usize
        ensures value { result ≡ length self.now }
        ensures in_days { (i : ℕ) → All IsInDays (list_at self.now i) }
    {
        self.lists.len()
    }

    /// How many pairs the list of the window at place i has, counted from 0.
    pub fn count(&self, i: usize) -> usize
        requires { i < length self.now }
        ensures { result ≡ length (list_at self.now i) }
    {
        self.list(i).len()
    }

    /// The pair at index j of the list of the window at place i: a second and a cost.
    pub fn pair(&self, i: usize, j: usize) -> (u32, u32)
        requires place { i < length self.now }
        requires index { j < length (list_at self.now i) }
        ensures value { result ≡ pair_at (list_at self.now i) j }
        ensures in_days { IsInDays result }
    {
        self.list(i)[j]
    }

    // The list of the window at place i.
    pub(crate) fn list(&self, i: usize) -> &[(u32, u32)]
        requires { i < length self.now }
        ensures value { result.now ≡ list_at self.now i }
        ensures in_days { All IsInDays result.now }
    {
        self.lists[i].as_slice()
    }

    // Puts a list behind the others.
    pub(crate) fn push(&mut self, list: Vec<(u32, u32)>) -> Result<(), AllocError>
        requires { All IsInDays list.items }
        ensures { OnOk result (self.new ≡ self.old ++ list.items ∷ []) }
    {
        self.lists.push(list)?;
        Ok(())
    }

    /// Keeps the windows and the lists at the places whose list is not empty, in order. It takes no memory.
    pub fn keep_landable<const W: usize>(&mut self, stage: &mut Stage<W>)
        requires width { IsWidth W }
        requires one_each { length self.old ≡ length stage.old.1 }
        ensures number { stage.new.0 ≡ stage.old.0 }
        ensures windows { stage.new.1 ≡ known_of self.old stage.old.1 }
        ensures lists { self.new ≡ known_of self.old self.old }

        // What is left are the landable windows, where none was missing.
        ensures landable { (p : Problem) → HasEachLandable p stage.old
            → AreCosts p stage.old self.old → HoldsCosts p stage.new self.new }
    {
        stage.compact(
            &mut self.lists,
            |list: &Vec<(u32, u32)>|
                ensures { result ≡ has_some list.now.items }
            { has_pair(list) },
        );
    }
}
