//! What the landings at a stage need.

ghost use Rattle.std.specs.Prelude.{◌≡◌, ◌+◌, ◌*◌, ◌≤◌, IfSome};
ghost use Rattle.cps_base.specs.Limits.{greatest_weight, latest_horizon};
ghost use Rattle.cps_theory.specs.Feasible.{next_from};
ghost use Rattle.landing_joint.specs.RankedProblem.{cost_at, landing_after, ranked};
ghost use Rattle.landing_rules.specs.Rules.{last_second};
ghost use Rattle.stage_landings.specs.Reach.{IsLatest, IsInReach, MayLead};
ghost use Rattle.wake_table.specs.Table.{greatest_separation};

use crate::follower::{Follower, place_of};
use cps_problem::Problem;
use std::marker::Model;

/// What the landings at the stage of a number need, by rank: made once, and changed by no landing.
///
/// The stage's number is that of the flights that have landed by it. A flight may land there whose rank is at most k from that
/// number, and just before it one whose rank is at most k from the number before.
#[derive(Drop)]
pub struct StageLandings<'a> {
    problem: &'a Problem,
    number: u8,
    // Of each rank in reach, at its place.
    followers: [Follower; 8],
}

impl<'a> Model for StageLandings<'a> {
    ghost use Rattle.stage_landings.specs.Followers.{AreFollowers};
    ghost use Rattle.stage_landings.specs.Reach.{StageOf};

    ghost Value = { StageOf };

    ghost view = { λ s. record { problem = s.problem.now; number = s.number } };

    ghost invariant = { λ s. AreFollowers s.problem.now s.number s.followers };
}

impl<'a> StageLandings<'a> {
    /// What the landings at the stage of a number need.
    pub fn of(problem: &'a Problem, number: u8) -> StageLandings<'a>
        ensures problem { result.problem ≡ problem.now }
        ensures number { result.number ≡ number }
    {
        // k is at most 3, and at most `MOST_WAITING` flights wait.
        let k = problem.head().k;
        let first = number.saturating_sub(k).max(1);
        let end = number.saturating_add(k).min(problem.len()) + 1;
        let mut followers = [Follower::none(); 8];
        for rank in first..end {
            followers[place_of(rank)] = Follower::of(problem, number, rank);
        }
        StageLandings {
            problem,
            number,
            followers,
        }
    }

    /// From when on a rank may land behind the latest landing, that of another rank at a second; behind rank 0, at second 0, as
    /// the first. The separation alone counts: the latest landing itself waited for the horizon and the last frozen one.
    #[inline]
    pub fn ready(&self, leader: u8, second: u32, rank: u8) -> u32
        requires leader { MayLead self.now.problem self.now.number leader }
        requires latest { IsLatest self.now.problem leader second }
        requires rank { IsInReach self.now.problem self.now.number rank }
        ensures value { result ≡ next_from (ranked self.now.problem) leader second rank }
        ensures small { result ≤ last_second + latest_horizon + greatest_separation }
    {
        // The problem is well formed, and its separations keep the triangle.
        let _well_formed = self.problem.head();
        second + self.followers[place_of(rank)].apart[place_of(leader)]
    }

    /// Where a rank lands behind the latest landing, as `ready` has it: its first open second from when it may. `None` exactly
    /// where there is none.
    #[inline]
    pub fn landing_after(&self, leader: u8, second: u32, rank: u8) -> Option<u32>
        requires leader { MayLead self.now.problem self.now.number leader }
        requires latest { IsLatest self.now.problem leader second }
        requires rank { IsInReach self.now.problem self.now.number rank }
        ensures value { result ≡ landing_after self.now.problem leader second rank }
        ensures in_days { IfSome result (λ t. t ≤ last_second) }
    {
        let ready = self.ready(leader, second, rank);
        let open = self.followers[place_of(rank)].open;
        if ready < open.1 {
            return Some(ready.max(open.0));
        }
        self.problem.first_open(rank, ready)
    }

    /// What the landing of a rank at a second adds to the delay: its weight times the seconds after its estimate. For the
    /// makespan nothing.
    #[inline]
    pub fn cost(&self, rank: u8, second: u32) -> u32
        requires rank { IsInReach self.now.problem self.now.number rank }
        requires second { second ≤ last_second }
        ensures value { result ≡ cost_at self.now.problem rank second }
        ensures small { result ≤ greatest_weight * second }
    {
        let place = place_of(rank);
        let after = second.saturating_sub(self.followers[place].eta);
        self.followers[place].price * after
    }
}
