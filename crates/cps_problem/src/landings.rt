ghost use Rattle.std.specs.Prelude.{◌≡◌, ◌≤◌, ◌+◌, ◌*◌, length, None, IfSome, MatchOption};
ghost use Rattle.cps_base.specs.Limits.{greatest_weight, latest_horizon};
ghost use Rattle.wake_table.specs.Table.{greatest_separation};
ghost use Rattle.landing_rules.specs.Problem.{last_frozen};
ghost use Rattle.landing_rules.specs.Rules.{last_second};
ghost use Rattle.cps_theory.specs.Feasible.{next_from};
ghost use Rattle.landing_joint.specs.RankedProblem.{ranked, landing_after, cost_at, apart_at, start_at, first_at};
ghost use Rattle.cps_problem.specs.OpenSpans.{IsOpenSpan};
ghost use Rattle.cps_problem.specs.Seen.{passed_at};

use crate::Problem;
use landing_rules::Objective;

impl Problem {
    /// The least seconds from the landing of a rank to that of another behind it.
    pub fn separation(&self, leader: u8, follower: u8) -> u32
        requires leader { (1 ≤ leader) × (leader ≤ length self.now.flights) }
        requires follower { (1 ≤ follower) × (follower ≤ length self.now.flights) }
        ensures value { result ≡ apart_at self.now leader follower }
        ensures range { (1 ≤ result) × (result ≤ greatest_separation) }
    {
        self.head().table.sep(self.flight(leader).category, self.flight(follower).category)
    }

    /// How many flights behind that of a rank froze ahead of it.
    pub fn passed(&self, rank: u8) -> u8
        requires { (1 ≤ rank) × (rank ≤ length self.now.flights) }
        ensures value { result ≡ passed_at self.now rank }
        ensures at_most { result ≤ self.now.k }
    {
        // The problem is well formed, and so each count at most k.
        let _counts = self.head();
        self.flight(rank).passed
    }

    /// The second of the last frozen landing, and 0 with none.
    pub fn last_frozen(&self) -> u32
        ensures { result ≡ last_frozen self.now.last }
    {
        match self.head().last {
            None => 0,
            Some((second, _)) => second,
        }
    }

    /// From when on a rank may land as the first: from the horizon on, and behind the last frozen landing.
    pub fn start(&self, rank: u8) -> u32
        requires { (1 ≤ rank) × (rank ≤ length self.now.flights) }
        ensures value { result ≡ start_at self.now rank }
        ensures small { result ≤ latest_horizon + greatest_separation }
    {
        let head = self.head();
        match head.last {
            None => head.horizon,
            Some((second, category)) => head.horizon.max(
                second + head.table.sep(category, self.flight(rank).category),
            ),
        }
    }

    /// From when on a rank may land behind another that landed at a second; behind rank 0 as the first.
    pub fn ready(&self, last: u8, second: u32, rank: u8) -> u32
        requires last { last ≤ length self.now.flights }
        requires second { second ≤ last_second }
        requires rank { (1 ≤ rank) × (rank ≤ length self.now.flights) }
        ensures value { result ≡ next_from (ranked self.now) last second rank }
        ensures small { result ≤ latest_horizon + greatest_separation }
    {
        let start = self.start(rank);
        if last == 0 {
            return start;
        }
        start.max(second + self.separation(last, rank))
    }

    /// The first open second of a rank from a second on.
    pub fn first_open(&self, rank: u8, from: u32) -> Option<u32>
        requires { (1 ≤ rank) × (rank ≤ length self.now.flights) }
        ensures value { result ≡ first_at self.now rank from }
        ensures in_days { IfSome result (λ t. t ≤ last_second) }
    {
        self.flight(rank).times.first_from(from)
    }

    /// The first open second of a rank from a second on, and the last one up to which it may land at each from there on.
    pub fn open_span(&self, rank: u8, from: u32) -> Option<(u32, u32)>
        requires { (1 ≤ rank) × (rank ≤ length self.now.flights) }
        ensures span { MatchOption result (first_at self.now rank from ≡ None)
            (λ span. IsOpenSpan (first_at self.now rank) from span) }
        ensures in_days { IfSome result (λ span. span.1 ≤ last_second) }
    {
        self.flight(rank).times.span_from(from)
    }

    /// Where a rank lands behind another that landed at a second, or as the first behind rank 0: its first open second
    /// from when it may land on. `None` exactly where there is none.
    pub fn landing_after(&self, last: u8, second: u32, rank: u8) -> Option<u32>
        requires last { last ≤ length self.now.flights }
        requires second { second ≤ last_second }
        requires rank { (1 ≤ rank) × (rank ≤ length self.now.flights) }
        ensures value { result ≡ landing_after self.now last second rank }
        ensures in_days { IfSome result (λ t. t ≤ last_second) }
    {
        self.first_open(rank, self.ready(last, second, rank))
    }

    /// What the landing of a rank at a second adds to the delay: its weight times the seconds after its estimate. For the
    /// makespan nothing.
    pub fn cost(&self, rank: u8, second: u32) -> u32
        requires rank { (1 ≤ rank) × (rank ≤ length self.now.flights) }
        requires second { second ≤ last_second }
        ensures value { result ≡ cost_at self.now rank second }
        ensures small { result ≤ greatest_weight * second }
    {
        match self.head().objective {
            Objective::Makespan => 0,
            Objective::Delay => {
                let flight = self.flight(rank);
                flight.weight * second.saturating_sub(flight.eta)
            }
        }
    }
}
