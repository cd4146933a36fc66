ghost use Rattle.std.specs.Prelude.{◌<◌, length, MatchResult};
ghost use Rattle.cps_base.specs.Limits.{greatest_word};
ghost use Rattle.arrivals.specs.Aerodromes.{IsInRange};
ghost use Rattle.arrivals.specs.Flights.{AreArrivals};
ghost use Rattle.certificate_commands.specs.Check.{AdmitsCheck, FollowsCheck, IsJudged, Judges, StopsCheck};
ghost use Rattle.endings.specs.Refusing.{StopsOpened};

use crate::verdict_lines::{answer, verdict_line};
use aerodrome_file::read_aerodrome;
use arrivals::{Aerodrome, Flight};
use cert_check::{Verdict, judge};
use certificate::{Certificate, read_certificate};
use cps_outside::Sink;
use endings::Ending;
use flight_file::read_flights;
use landing_joint::laws::problem_stands_for_situation;
use openings::{Report, print_report};
use sequencer::opening_problem;
use std::alloc::Global;

// The verdict on a certificate for the opening situation of the files.
fn judge_opened(
    alloc: Global,
    aerodrome: &Aerodrome,
    flights: &[Flight],
    certificate: &Certificate,
) -> Result<Verdict, Ending>
    requires range { IsInRange aerodrome.now }
    requires read { AreArrivals flights.now }
    ensures { MatchResult result
        (IsJudged aerodrome.now flights.now certificate.now)
        (StopsOpened aerodrome.now flights.now) }
{
    problem_stands_for_situation();
    let problem = opening_problem(alloc, aerodrome, flights)?;
    // The problem is well formed.
    let _well_formed = problem.head();
    // The certificate has its form.
    let _in_form = certificate.claim();
    Ok(judge(&problem, certificate))
}

// The same for the bytes of the files.
fn judge_files(
    alloc: Global,
    aerodrome: &[u8],
    flights: &[u8],
    certificate: &[u8],
) -> Result<Verdict, Ending>
    requires { length certificate.now < greatest_word }
    ensures { MatchResult result
        (Judges aerodrome.now flights.now certificate.now)
        (StopsCheck aerodrome.now flights.now certificate.now) }
{
    let aerodrome = read_aerodrome(alloc, aerodrome)?;
    let flights = read_flights(alloc, flights)?;
    let certificate = read_certificate(alloc, certificate)?;
    judge_opened(alloc, &aerodrome, flights.as_slice(), &certificate)
}

// The line of that verdict.
fn report_files(
    alloc: Global,
    aerodrome: &[u8],
    flights: &[u8],
    certificate: &[u8],
) -> Result<Report, Ending>
    requires { length certificate.now < greatest_word }
    ensures { MatchResult result
        (λ r. AdmitsCheck aerodrome.now flights.now certificate.now r.text.items r.answer)
        (StopsCheck aerodrome.now flights.now certificate.now) }
{
    let verdict = judge_files(alloc, aerodrome, flights, certificate)?;
    let text = verdict_line(alloc, &verdict)?;
    let answer = answer(&verdict);
    Ok(Report { text, answer })
}

/// The command `check`: prints the verdict on the certificate of the files, of fewer than 4,294,967,295 bytes, and answers whether
/// it is accepted.
pub fn run_check<S: Sink>(
    alloc: Global,
    aerodrome: &[u8],
    flights: &[u8],
    certificate: &[u8],
    out: &mut S,
) -> Ending
    requires { length certificate.now < greatest_word }
    ensures { FollowsCheck aerodrome.now flights.now certificate.now
        (S.state out.old) (S.state out.new) result }
{
    let report = report_files(alloc, aerodrome, flights, certificate);
    print_report(out, report)
}
