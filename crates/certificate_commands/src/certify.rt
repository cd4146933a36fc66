ghost use Rattle.std.specs.Prelude.{MatchResult};
ghost use Rattle.arrivals.specs.Aerodromes.{IsInRange};
ghost use Rattle.arrivals.specs.Flights.{AreArrivals};
ghost use Rattle.certificate_commands.specs.Certify.{AdmitsCertify, Certifies, FollowsCertify, IsCertified};
ghost use Rattle.endings.specs.Refusing.{StopsOpened};
ghost use Rattle.openings.specs.Plan.{StopsPlan};

use aerodrome_file::read_aerodrome;
use arrivals::{Aerodrome, Flight};
use certificate::{Certificate, print_certificate};
use cps_base::{Silent, Steps};
use cps_outside::{Gate, Sink};
use endings::{Answer, Ending};
use flight_file::read_flights;
use landing_joint::laws::problem_stands_for_situation;
use openings::{Report, print_report};
use replan::AnyKept;
use sequencer::opening_problem;
use std::alloc::Global;
use std::thread::Threads;

// The certificate of the problem that the files open, by one planning of it.
fn certify_opened<R: Threads + Sync, G: Gate + Sync>(
    rt: &R,
    alloc: Global,
    aerodrome: &Aerodrome,
    flights: &[Flight],
    gate: &G,
) -> Result<Certificate, Ending>
    requires range { IsInRange aerodrome.now }
    requires read { AreArrivals flights.now }
    ensures { MatchResult result
        (IsCertified aerodrome.now flights.now)
        (StopsOpened aerodrome.now flights.now) }
{
    problem_stands_for_situation();
    let problem = opening_problem(alloc, aerodrome, flights)?;
    // The problem is well formed.
    let _well_formed = problem.head();
    let mut planner = AnyKept::fresh(aerodrome.k);
    let mut steps = Steps::new(Silent);
    let schedule = planner.replan(rt, alloc, &problem, gate, &mut steps)?;
    let certificate = cert_writer::certify(alloc, &problem, &planner, schedule.as_ref())?;
    // The certificate has its form.
    let _in_form = certificate.claim();
    Ok(certificate)
}

// Its text.
fn report_opened<R: Threads + Sync, G: Gate + Sync>(
    rt: &R,
    alloc: Global,
    aerodrome: &Aerodrome,
    flights: &[Flight],
    gate: &G,
) -> Result<Report, Ending>
    requires range { IsInRange aerodrome.now }
    requires read { AreArrivals flights.now }
    ensures { MatchResult result
        (λ r. Certifies aerodrome.now flights.now r.text.items r.answer)
        (StopsOpened aerodrome.now flights.now) }
{
    let certificate = certify_opened(rt, alloc, aerodrome, flights, gate)?;
    let mut text = Vec::new(alloc);
    print_certificate(&certificate, &mut text)?;
    Ok(Report {
        text,
        answer: Answer::Certified,
    })
}

// The same for the bytes of the files.
fn report_files<R: Threads + Sync, G: Gate + Sync>(
    rt: &R,
    alloc: Global,
    aerodrome: &[u8],
    flights: &[u8],
    gate: &G,
) -> Result<Report, Ending>
    ensures { MatchResult result
        (λ r. AdmitsCertify aerodrome.now flights.now r.text.items r.answer)
        (StopsPlan aerodrome.now flights.now) }
{
    let aerodrome = read_aerodrome(alloc, aerodrome)?;
    let flights = read_flights(alloc, flights)?;
    report_opened(rt, alloc, &aerodrome, flights.as_slice(), gate)
}

/// The command `certify`: prints a certificate of the problem that the files open.
pub fn run_certify<R: Threads + Sync, S: Sink, G: Gate + Sync>(
    rt: &R,
    alloc: Global,
    aerodrome: &[u8],
    flights: &[u8],
    out: &mut S,
    gate: &G,
) -> Ending
    ensures { FollowsCertify aerodrome.now flights.now
        (S.state out.old) (S.state out.new) result }
{
    let report = report_files(rt, alloc, aerodrome, flights, gate);
    print_report(out, report)
}
