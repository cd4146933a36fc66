//! What may still follow each node of the held stages.

ghost use Rattle.std.specs.Prelude.{◌≡◌, ◌+◌, ◌-◌, ◌<◌, ◌≤◌, IfOk, Some, length};
ghost use Rattle.cps_network.specs.Pairs.{pair_at};
ghost use Rattle.replan.specs.Kept.{held_of, problem_held};
ghost use Rattle.replan.specs.WindowNodes.{AreNodesOf};
ghost use Rattle.first_best.specs.Stages.{pairs_of, stage_of, AreCompleted, HasEachList, HasList, IsAheadBy, IsAheadOf, IsAheadWithin, IsBehind, ListsAllCompleting, ListsAllOfUse};
ghost use Rattle.first_best.specs.Gathered.{IsGathered};

use crate::budget::budget_of;
use crate::complete::{Wanted, complete};
use crate::gather::gather;
use crate::laws::window_laws;
use crate::stage::StageAhead;
use cps_problem::Problem;
use replan::{AnyKept, WindowNodes};
use std::alloc::{AllocError, Global};
use std::marker::Model;

// A stage with the pairs that complete its nodes, from the next stage.
fn stage_before(
    alloc: Global,
    wanted: &Wanted<'_>,
    kept: &AnyKept,
    windows: &WindowNodes,
    next: &StageAhead,
) -> Result<StageAhead, AllocError>
    requires held { problem_held kept.now ≡ Some wanted.now.problem.now }
    requires stage { (1 ≤ wanted.now.stage)
        × (wanted.now.stage ≤ length wanted.now.problem.now.flights) }
    requires windows { AreNodesOf (held_of kept.now) wanted.now.stage windows.now }
    requires next { IsBehind wanted.now.problem.now wanted.now.value wanted.now.budget
        wanted.now.stage next.now }
    ensures completed { IfOk result (λ s.
        AreCompleted wanted.now.problem.now wanted.now.value wanted.now.budget wanted.now.stage
        s.nodes s.lists) }
    ensures gathered { IfOk result (λ s.
        IsGathered (held_of kept.now) wanted.now.stage s.nodes s.places) }
{
    window_laws(wanted.problem);
    // The stages that are held are those of the problem.
    let _held = kept.stages();
    let found = gather(alloc, wanted.problem, kept, wanted.stage, windows)?;
    let nodes = found.as_slice();
    let lists = complete(alloc, wanted, nodes, next)?;
    let windows = windows.share()?;
    Ok(StageAhead {
        nodes: found,
        lists,
        windows,
    })
}

/// For each node of the held stages of a problem, pairs that complete it: all undominated ones, or for each that is of use one
/// at least as late and at most as dear. A pair is an open second of the node's last flight, at or after the earliest at which
/// a legal prefix of the node can land it, and a cost: with that flight at this second the other flights can follow in some
/// legal order, and for the delay cost this together; for the makespan the cost is 0, and no second is above the value. A pair
/// is undominated where no other is at least as late and at most as dear.
///
/// The completing pairs are this project's own.
#[derive(Drop)]
pub struct Ahead {
    // First a stage without a node, then the stages of the problem, the last one first.
    stages: Vec<StageAhead>,
}

impl Model for Ahead {
    ghost use Rattle.std.specs.Prelude.{List};
    ghost use Rattle.first_best.specs.Completing.{StageAhead};

    ghost Value = { List StageAhead };

    ghost view = { λ a. a.stages.items };
}

// The pairs of the held stages that are wanted: those of use within the budget, or all where there is none.
fn stages_ahead(
    alloc: Global,
    problem: &Problem,
    kept: &AnyKept,
    value: u64,
    budget: Option<u64>,
) -> Result<Ahead, AllocError>
    requires { problem_held kept.now ≡ Some problem.now }
    ensures { IfOk result (IsAheadBy problem.now value budget (held_of kept.now)) }
{
    let last = problem.len();
    // The stages that are held are those of the problem.
    let _held = kept.stages();
    let mut windows = WindowNodes::new(alloc)?;
    let mut stages = Vec::with_capacity(alloc, usize::from(last) + 1)?;
    stages.push(StageAhead::new(alloc)?)?;
    for done in 0..last {
        let number = last - done;
        let put = kept.nodes(alloc, number, &windows)?;
        let next = &stages[usize::from(done)];
        let wanted = Wanted {
            problem,
            value,
            budget,
            stage: number,
        };
        let stage = stage_before(alloc, &wanted, kept, &put, next)?;
        stages.push(stage)?;
        windows = put;
    }
    Ok(Ahead { stages })
}

impl Ahead {
    /// The completing pairs of a problem that the planner holds, at a value: an objective in seconds, or in weighted seconds.
    pub fn of(
        alloc: Global,
        problem: &Problem,
        kept: &AnyKept,
        value: u64,
    ) -> Result<Ahead, AllocError>
        requires { problem_held kept.now ≡ Some problem.now }
        ensures made { IfOk result (IsAheadOf problem.now value (held_of kept.now)) }

        // Each window has a list: exactly the undominated pairs that complete its node, ascending in second and cost.
        ensures lists { IfOk result (HasEachList problem.now (held_of kept.now)) }
        ensures exact { IfOk result (ListsAllCompleting problem.now value (held_of kept.now)) }

        // Those of use are among them.
        ensures within { IfOk result (IsAheadWithin problem.now value (held_of kept.now)) }
    {
        window_laws(problem);
        // The stages that are held are those of the problem.
        let _held = kept.stages();
        stages_ahead(alloc, problem, kept, value, None)
    }

    /// The completing pairs that are of use at the value: some landed legal prefix of the node lands at or before the pair's
    /// second, and costs, with the pair, no more than the value leaves to delays. Where the value is the least objective these
    /// are few, and `first_schedule` asks for no others.
    pub fn within(
        alloc: Global,
        problem: &Problem,
        kept: &AnyKept,
        value: u64,
    ) -> Result<Ahead, AllocError>
        requires { problem_held kept.now ≡ Some problem.now }
        ensures made { IfOk result (IsAheadWithin problem.now value (held_of kept.now)) }

        // Each window has a list: pairs that complete its node, ascending in second and cost, and for each pair of use one at
        // least as late and at most as dear.
        ensures lists { IfOk result (HasEachList problem.now (held_of kept.now)) }
        ensures useful { IfOk result (ListsAllOfUse problem.now value (held_of kept.now)) }
    {
        window_laws(problem);
        // The stages that are held are those of the problem.
        let _held = kept.stages();
        let budget = budget_of(problem, value);
        stages_ahead(alloc, problem, kept, value, Some(budget))
    }

    // The stage of this number.
    pub(crate) fn stage(&self, stage: u8) -> &StageAhead
        requires { (1 ≤ stage) × (stage < length self.now) }
        ensures { result.now ≡ stage_of self.now stage }
    {
        &self.stages[self.stages.len() - usize::from(stage)]
    }

    /// How many pairs the window at place i of a stage has, counted from 0.
    pub fn count(&self, stage: u8, i: usize) -> usize
        requires { HasList self.now stage i }
        ensures { result ≡ length (pairs_of self.now stage i) }
    {
        let stage = self.stage(stage);
        stage.lists[stage.windows.places()[i]].len()
    }

    /// The pair at index j of the window at place i of a stage: a second and a cost.
    pub fn pair(&self, stage: u8, i: usize, j: usize) -> (u32, u32)
        requires list { HasList self.now stage i }
        requires index { j < length (pairs_of self.now stage i) }
        ensures { result ≡ pair_at (pairs_of self.now stage i) j }
    {
        let stage = self.stage(stage);
        stage.lists[stage.windows.places()[i]].pair(j)
    }
}
