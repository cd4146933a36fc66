ghost use Rattle.std.specs.Prelude.{◌≡◌, ◌≤◌, [], length, MatchResult, IfOk};
ghost use Rattle.cps_base.specs.Limits.{greatest_k, most_waiting};
ghost use Rattle.landing_rules.specs.Text.{plan_shown};
ghost use Rattle.arrivals.specs.Aerodromes.{IsInRange};
ghost use Rattle.arrivals.specs.Flights.{AreArrivals};
ghost use Rattle.plan_text.specs.Trial.{trial_text};
ghost use Rattle.openings.specs.Plan.{answer_of};
ghost use Rattle.traffic_lands.specs.Landing.{ShowsPlan};
ghost use Rattle.planning_commands.specs.Trial.{Sums, AdmitsTrial, FollowsTrial, StopsTrial};

use cps_outside::{Gate, Sink};
use cps_problem::Planner;
use endings::Ending;
use openings::{Report, answer, begin, print_report};
use plan_text::trial_summary;
use sequencer::Sequencer;
use situations::laws::plain_files_open;
use std::alloc::{AllocError, Global};
use std::thread::Threads;
use traffic_gen::{Traffic, generate};
use traffic_lands::traffic_can_land;

// The summary of the plan that is shown, over so many candidates.
fn report_plan<P: Planner>(
    alloc: Global,
    sequencer: &Sequencer<P>,
    n: u8,
    k: u8,
    nodes: u64,
) -> Result<Report, AllocError>
    ensures text { IfOk result (λ r. r.text.items ≡
        trial_text n k nodes sequencer.now.state.situation.aerodrome.objective
        (plan_shown sequencer.now.state)) }
    ensures answer { IfOk result (λ r. r.answer ≡ answer_of sequencer.now.state.plan) }
{
    let plan = sequencer.plan();
    let mut text = Vec::new(alloc);
    trial_summary(n, k, nodes, sequencer.objective(), plan, &mut text)?;
    let answer = answer(plan.is_some());
    Ok(Report { text, answer })
}

// The same of a sequencer that has begun, with the candidates of its planning.
fn report_begun<P: Planner>(
    alloc: Global,
    begun: (Sequencer<P>, u64),
    n: u8,
    k: u8,
) -> Result<Report, AllocError>
    ensures text { IfOk result (λ r. r.text.items ≡
        trial_text n k begun.1 begun.0.state.situation.aerodrome.objective
        (plan_shown begun.0.state)) }
    ensures answer { IfOk result (λ r. r.answer ≡ answer_of begun.0.state.plan) }
{
    report_plan(alloc, &begun.0, n, k, begun.1)
}

// The same for traffic of n flights under the bound k on shifts, which has a plan.
fn report_traffic<R: Threads + Sync, G: Gate + Sync>(
    rt: &R,
    alloc: Global,
    traffic: Traffic,
    n: u8,
    k: u8,
    gate: &G,
) -> Result<Report, Ending>
    requires range { IsInRange traffic.aerodrome }
    requires read { AreArrivals traffic.flights }
    requires few { length traffic.flights ≤ most_waiting }
    requires none_frozen { traffic.aerodrome.frozen ≡ [] }
    requires none_passed { traffic.aerodrome.passed ≡ [] }
    requires lands { ShowsPlan traffic }
    ensures { MatchResult result
        (λ r. Sums traffic n k r.text.items r.answer)
        StopsTrial }
{
    plain_files_open();
    let (aerodrome, flights) = traffic.into_parts();
    let begun = begin(rt, alloc, aerodrome, flights, gate)?;
    let report = report_begun(alloc, begun, n, k)?;
    Ok(report)
}

/// The numbers of a trial.
#[derive(Clone, Copy)]
pub struct TrialNumbers {
    /// The seed of its traffic.
    pub seed: u64,
    /// How many flights it has, 1 to `MOST_WAITING`.
    pub n: u8,
    /// The bound on shifts, 0 to 3.
    pub k: u8,
}

// The same for the traffic of a seed.
fn report_seed<R: Threads + Sync, G: Gate + Sync>(
    rt: &R,
    alloc: Global,
    numbers: TrialNumbers,
    gate: &G,
) -> Result<Report, Ending>
    requires count { (1 ≤ numbers.n) × (numbers.n ≤ most_waiting) }
    requires shifts { numbers.k ≤ greatest_k }
    ensures { MatchResult result
        (λ r. AdmitsTrial numbers.seed numbers.n numbers.k r.text.items r.answer)
        StopsTrial }
{
    traffic_can_land();
    let TrialNumbers { seed, n, k } = numbers;
    let traffic = generate(alloc, seed, n, k)?;
    report_traffic(rt, alloc, traffic, n, k, gate)
}

/// The command `trial`: prints the summary of the traffic of these numbers, and answers that it has a plan, as such traffic always
/// has.
pub fn run_trial<R: Threads + Sync, S: Sink, G: Gate + Sync>(
    rt: &R,
    alloc: Global,
    numbers: TrialNumbers,
    out: &mut S,
    gate: &G,
) -> Ending
    requires count { (1 ≤ numbers.n) × (numbers.n ≤ most_waiting) }
    requires shifts { numbers.k ≤ greatest_k }
    ensures { FollowsTrial numbers.seed numbers.n numbers.k
        (S.state out.old) (S.state out.new) result }
{
    let report = report_seed(rt, alloc, numbers, gate);
    print_report(out, report)
}
