ghost use Rattle.std.specs.Prelude.{◌≡◌, IfOk, MatchResult};
ghost use Rattle.landing_rules.specs.Text.{lines_text, plan_lines};
ghost use Rattle.openings.specs.Plan.{answer_of, AdmitsPlan, StopsPlan};
ghost use Rattle.planning_commands.specs.Plan.{FollowsPlan};

use cps_outside::{Gate, Sink};
use cps_problem::Planner;
use endings::Ending;
use openings::{Report, answer, open_files, print_report};
use plan_text::plan_block;
use sequencer::Sequencer;
use std::alloc::{AllocError, Global};
use std::thread::Threads;

// The block of the plan that is shown.
fn report_plan<P: Planner>(alloc: Global, sequencer: &Sequencer<P>) -> Result<Report, AllocError>
    ensures text { IfOk result (λ r. r.text.items ≡ lines_text (plan_lines sequencer.now.state)) }
    ensures answer { IfOk result (λ r. r.answer ≡ answer_of sequencer.now.state.plan) }
{
    let mut text = Vec::new(alloc);
    plan_block(sequencer.objective(), sequencer.plan(), &mut text)?;
    let answer = answer(sequencer.plan().is_some());
    Ok(Report { text, answer })
}

// The same for the bytes of the files.
fn report_files<R: Threads + Sync, G: Gate + Sync>(
    rt: &R,
    alloc: Global,
    aerodrome: &[u8],
    flights: &[u8],
    gate: &G,
) -> Result<Report, Ending>
    ensures { MatchResult result
        (λ r. AdmitsPlan aerodrome.now flights.now r.text.items r.answer)
        (StopsPlan aerodrome.now flights.now) }
{
    let (sequencer, _) = open_files(rt, alloc, aerodrome, flights, gate)?;
    Ok(report_plan(alloc, &sequencer)?)
}

/// The command `plan`: prints the opening plan of the files, and answers whether there is one.
pub fn run_plan<R: Threads + Sync, S: Sink, G: Gate + Sync>(
    rt: &R,
    alloc: Global,
    aerodrome: &[u8],
    flights: &[u8],
    out: &mut S,
    gate: &G,
) -> Ending
    ensures { FollowsPlan aerodrome.now flights.now
        (S.state out.old) (S.state out.new) result }
{
    let report = report_files(rt, alloc, aerodrome, flights, gate);
    print_report(out, report)
}
