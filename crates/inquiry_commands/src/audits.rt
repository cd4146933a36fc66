ghost use Rattle.std.specs.Prelude.{◌≡◌, ◌≤◌, ◌↔◌, IfOk, MatchResult, codes, length, map};
ghost use Rattle.landing_rules.specs.Audit.{IsClean, findings};
ghost use Rattle.landing_rules.specs.Text.{line};
ghost use Rattle.cps_base.specs.Limits.{most_flights};
ghost use Rattle.audit.specs.Findings.{finding_of};
ghost use Rattle.plan_file.specs.Blocks.{seen_block};
ghost use Rattle.arrivals.specs.Aerodromes.{IsInRange};
ghost use Rattle.arrivals.specs.Flights.{AreArrivals};
ghost use Rattle.landing_rules.specs.Sound.{IsSound};
ghost use Rattle.plan_file.specs.Reading.{HasFewLines};
ghost use Rattle.inquiry_commands.specs.Audit.{AdmitsAudit, AuditIsBoundedLaw, FollowsAudit, IsAudited, StopsAudit, TellsClean, audit_answer, audit_text, report, report_answer};
ghost use Rattle.endings.specs.Refusing.{StopsOpened};

use aerodrome_file::read_aerodrome;
use arrivals::{Aerodrome, Flight};
use audit::{Finding, append_findings, audit};
use cps_outside::Sink;
use endings::{Answer, Ending};
use flight_file::read_flights;
use openings::{Report, print_report};
use plan_file::{Block, PlanText, read_plan};
use sequencer::opening;
use situations::Situation;
use std::alloc::{AllocError, Global};

// A line for each finding, or that there is none.
fn report_found(alloc: Global, found: &[Finding]) -> Result<Report, AllocError>
    ensures text { IfOk result (λ r. r.text.items ≡ report (map finding_of found.now)) }
    ensures answer { IfOk result (λ r. r.answer ≡ report_answer (map finding_of found.now)) }
{
    if found.is_empty() {
        return Ok(Report {
            text: Vec::from_slice(alloc, b"ok\n")?,
            answer: Answer::Clean,
        });
    }
    let mut text = Vec::new(alloc);
    append_findings(found, &mut text)?;
    Ok(Report {
        text,
        answer: Answer::Broken,
    })
}

// What is found of a plan block: a line for each finding, or that there is none.
fn report_block(alloc: Global, situation: &Situation, block: &Block) -> Result<Report, AllocError>
    requires sound { IsSound situation.now }
    requires few { length block.now.lines ≤ most_flights }
    ensures text { IfOk result (λ r. r.text.items ≡
        report (findings situation.now (seen_block block.now))) }
    ensures answer { IfOk result (λ r. r.answer ≡
        report_answer (findings situation.now (seen_block block.now))) }
    ensures clean { IfOk result (λ r. (r.text.items ≡ line (codes "ok"))
        ↔ IsClean situation.now (seen_block block.now)) }
{
    let found = audit(alloc, situation, block)?;
    let report = report_found(alloc, &found)?;
    Ok(report)
}

// What is found of a plan. That there is none is a claim, which only a certificate shows.
fn report_plan(alloc: Global, situation: &Situation, plan: &PlanText) -> Result<Report, AllocError>
    requires sound { IsSound situation.now }
    requires few { HasFewLines plan.now }
    ensures text { IfOk result (λ r. r.text.items ≡ audit_text situation.now plan.now) }
    ensures answer { IfOk result (λ r. r.answer ≡ audit_answer situation.now plan.now) }
    ensures clean { IfOk result (λ r. TellsClean situation.now plan.now r.text.items) }
{
    match plan {
        PlanText::Nothing => Ok(Report {
            text: Vec::from_slice(alloc, b"infeasible claimed\n")?,
            answer: Answer::Claimed,
        }),
        PlanText::Block(block) => report_block(alloc, situation, block),
    }
}

// The same in the opening situation of files that are read.
fn report_opened(
    alloc: Global,
    aerodrome: Aerodrome,
    flights: Vec<Flight>,
    plan: &PlanText,
) -> Result<Report, Ending>
    requires range { IsInRange aerodrome }
    requires read { AreArrivals flights.items }
    requires few { HasFewLines plan.now }
    ensures { MatchResult result
        (λ r. IsAudited aerodrome flights.items plan.now r.text.items r.answer)
        (StopsOpened aerodrome flights.items) }
{
    let situation = opening(alloc, &aerodrome, flights.as_slice())?;
    let report = report_plan(alloc, &situation, plan)?;
    Ok(report)
}

// The same for the bytes of the files.
fn report_files(
    alloc: Global,
    aerodrome: &[u8],
    flights: &[u8],
    plan: &[u8],
) -> Result<Report, Ending>
    ensures { MatchResult result
        (λ r. AdmitsAudit aerodrome.now flights.now plan.now r.text.items r.answer)
        (StopsAudit aerodrome.now flights.now plan.now) }
{
    let aerodrome = read_aerodrome(alloc, aerodrome)?;
    let flights = read_flights(alloc, flights)?;
    let plan = read_plan(alloc, plan)?;
    report_opened(alloc, aerodrome, flights, &plan)
}

/// The command `audit`: prints every rule that the plan of the files breaks, and answers whether there is one.
pub fn run_audit<S: Sink>(
    alloc: Global,
    aerodrome: &[u8],
    flights: &[u8],
    plan: &[u8],
    out: &mut S,
) -> Ending
    ensures { FollowsAudit aerodrome.now flights.now plan.now
        (S.state out.old) (S.state out.new) result }
{
    let report = report_files(alloc, aerodrome, flights, plan);
    print_report(out, report)
}

/// How many bytes `audit` prints at most: 60 + 30n + 300m + 15m² for n flights and a plan file of m landing lines, which are at
/// most 500. The call does nothing: it tells its caller the law.
pub fn audit_texts_are_bounded()
    ensures { AuditIsBoundedLaw }
{}
