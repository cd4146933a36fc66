ghost use Rattle.std.specs.Prelude.{◌≡◌, IfOk, Some, MatchResult};
ghost use Rattle.replan.specs.Kept.{problem_held};
ghost use Rattle.inquiry_commands.specs.First.{AdmitsFirst, FollowsFirst, ShowsFirstOf};
ghost use Rattle.openings.specs.Plan.{StopsPlan};

use crate::first_plans::first_plan;
use cps_outside::{Gate, Sink};
use endings::Ending;
use openings::{Report, answer, open_files, print_report};
use plan_text::plan_block;
use replan::AnyKept;
use sequencer::Sequencer;
use std::alloc::{AllocError, Global};
use std::thread::Threads;

// The block of the first plan.
fn report_plan(alloc: Global, sequencer: &Sequencer<AnyKept>) -> Result<Report, AllocError>
    requires held { problem_held sequencer.now.planner ≡ Some sequencer.now.problem }
    ensures { IfOk result (λ r.
        ShowsFirstOf sequencer.now.state.situation r.text.items r.answer) }
{
    // The problem is that of the situation, which is sound.
    let _sound = sequencer.problem();
    let plan = first_plan(alloc, sequencer)?;
    let mut text = Vec::new(alloc);
    plan_block(sequencer.objective(), plan.as_ref(), &mut text)?;
    let answer = answer(plan.is_some());
    Ok(Report { text, answer })
}

// The same for the bytes of the files.
fn report_files<R: Threads + Sync, G: Gate + Sync>(
    rt: &R,
    alloc: Global,
    aerodrome: &[u8],
    flights: &[u8],
    gate: &G,
) -> Result<Report, Ending>
    ensures { MatchResult result
        (λ r. AdmitsFirst aerodrome.now flights.now r.text.items r.answer)
        (StopsPlan aerodrome.now flights.now) }
{
    let (sequencer, _) = open_files(rt, alloc, aerodrome, flights, gate)?;
    Ok(report_plan(alloc, &sequencer)?)
}

/// The command `first`: prints the first plan of the files, and answers whether there is one.
pub fn run_first<R: Threads + Sync, S: Sink, G: Gate + Sync>(
    rt: &R,
    alloc: Global,
    aerodrome: &[u8],
    flights: &[u8],
    out: &mut S,
    gate: &G,
) -> Ending
    ensures { FollowsFirst aerodrome.now flights.now
        (S.state out.old) (S.state out.new) result }
{
    let report = report_files(rt, alloc, aerodrome, flights, gate);
    print_report(out, report)
}
