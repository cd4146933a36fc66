ghost use Rattle.std.specs.Prelude.{◌≤◌, All, MatchResult, length};
ghost use Rattle.arrivals.specs.Aerodromes.{IsInRange};
ghost use Rattle.arrivals.specs.Flights.{AreArrivals};
ghost use Rattle.trial_file.specs.Trials.{IsGood, most_trials};
ghost use Rattle.endings.specs.Refusing.{StopsOpened};
ghost use Rattle.inquiry_commands.specs.WhatIf.{AdmitsWhatIf, AreTried, FollowsWhatIf, StopsWhatIf};
ghost use Rattle.inquiry_commands.specs.WhatIf.{WhatIfIsBoundedLaw, WhatIfTextIsOneLaw};

use aerodrome_file::read_aerodrome;
use arrivals::{Aerodrome, Flight};
use cps_outside::{Gate, Sink};
use endings::{Answer, Ending};
use flight_file::read_flights;
use openings::{Report, print_report};
use sequencer::opening;
use std::alloc::Global;
use std::thread::Threads;
use trial_file::{Trial, read_trials};
use whatif::{append_outcomes, outcomes_are_one, run_trials};

// The outcomes of the trials over files that are read, a line each.
fn try_opened<R: Threads + Sync, G: Gate + Sync>(
    rt: &R,
    alloc: Global,
    aerodrome: &Aerodrome,
    flights: &[Flight],
    trials: &[Trial],
    gate: &G,
) -> Result<Vec<u8>, Ending>
    requires range { IsInRange aerodrome.now }
    requires read { AreArrivals flights.now }
    requires few { length trials.now ≤ most_trials }
    requires good { All IsGood trials.now }
    ensures { MatchResult result
        (λ text. AreTried aerodrome.now flights.now trials.now text.items)
        (StopsOpened aerodrome.now flights.now) }
{
    // Where the files open no situation, this is how the command ends; else their situation is sound.
    let _opened = opening(alloc, aerodrome, flights)?;
    let outcomes = run_trials(rt, alloc, aerodrome, flights, trials, gate)?;
    let mut text = Vec::new(alloc);
    append_outcomes(outcomes.as_slice(), &mut text)?;
    Ok(text)
}

/// The bytes of the files of trials.
#[derive(Clone, Copy)]
pub struct TrialFiles<'a> {
    /// The aerodrome file.
    pub aerodrome: &'a [u8],
    /// The flight file.
    pub flights: &'a [u8],
    /// The trial file.
    pub trials: &'a [u8],
}

// The same for the bytes of the files.
fn report_files<R: Threads + Sync, G: Gate + Sync>(
    rt: &R,
    alloc: Global,
    files: &TrialFiles<'_>,
    gate: &G,
) -> Result<Report, Ending>
    ensures { MatchResult result
        (λ r. AdmitsWhatIf files.now.aerodrome.now files.now.flights.now files.now.trials.now
        r.text.items r.answer)
        (StopsWhatIf files.now.aerodrome.now files.now.flights.now files.now.trials.now) }
{
    let aerodrome = read_aerodrome(alloc, files.aerodrome)?;
    let flights = read_flights(alloc, files.flights)?;
    let trials = read_trials(alloc, files.trials)?;
    let text = try_opened(
        rt,
        alloc,
        &aerodrome,
        flights.as_slice(),
        trials.as_slice(),
        gate,
    )?;
    Ok(Report {
        text,
        answer: Answer::Tried,
    })
}

/// The command `whatif`: prints the outcomes of the trials of the files, a line each.
pub fn run_what_if<R: Threads + Sync, S: Sink, G: Gate + Sync>(
    rt: &R,
    alloc: Global,
    files: &TrialFiles<'_>,
    out: &mut S,
    gate: &G,
) -> Ending
    ensures { FollowsWhatIf files.now.aerodrome.now files.now.flights.now files.now.trials.now
        (S.state out.old) (S.state out.new) result }
{
    let report = report_files(rt, alloc, files, gate);
    print_report(out, report)
}

/// Two texts that `whatif` may print for the same files are one, with one answer: the text is a function of the files' bytes. The
/// call does nothing: it tells its caller the law.
#[tactic(auto, using(crate::proofs::WhatIfTexts::what_if_one))]
pub fn what_if_text_is_one()
    ensures { WhatIfTextIsOneLaw }
{
    outcomes_are_one();
}

/// How many bytes `whatif` prints at most: 16 + 48t for t trials. The call does nothing: it tells its caller the law.
pub fn what_if_texts_are_bounded()
    ensures { WhatIfIsBoundedLaw }
{}
