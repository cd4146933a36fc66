ghost use Rattle.std.specs.Prelude.{◌≡◌, IfOk, IfErr, None};
ghost use Rattle.landing_rules.specs.Problem.{IsProblemOf};
ghost use Rattle.landing_rules.specs.Sound.{IsSound};
ghost use Rattle.cps_problem.specs.Plans.{IsWithinShift};
ghost use Rattle.situations.specs.Opened.{CanOpen, opened};
ghost use Rattle.situations.specs.Refused.{opening_fault};
ghost use Rattle.situations.specs.Begun.{IsRefusedBy};

use crate::problem::problem_of;
use arrivals::{Aerodrome, Flight};
use cps_problem::Problem;
use situations::{BeginFault, Situation};
use std::alloc::Global;

/// The situation that an aerodrome and its flights open: the flights in the order of their file, and the clock second, the
/// frozen landings and the counts of the aerodrome's file.
///
/// It is asked that there are at most 500 flights, with callsigns apart, and that all numbers are in their ranges. A
/// refusal is the first opening refusal that holds, with its value, or want of memory.
pub fn opening(
    alloc: Global,
    aerodrome: &Aerodrome,
    flights: &[Flight],
) -> Result<Situation, BeginFault>
    requires { CanOpen aerodrome.now flights.now }
    ensures value { IfOk result (λ situation. situation ≡ opened aerodrome.now flights.now) }
    ensures sound { IfOk result IsSound }
    ensures plannable { IfOk result (λ situation. IsWithinShift situation.aerodrome.objective
        situation.aerodrome.k) }
    ensures openable { IfOk result (λ _. opening_fault aerodrome.now flights.now ≡ None) }
    ensures refused { IfErr result (IsRefusedBy (opening_fault aerodrome.now flights.now)) }
{
    let situation = Situation::opening(alloc, aerodrome, flights)?;
    match situation.opening_fault(alloc, aerodrome)? {
        None => Ok(situation),
        Some(found) => Err(BeginFault::from(found)),
    }
}

/// The problem of the opening situation: its waiting flights by rank, and what the frozen ones leave them.
///
/// It is asked that there are at most 500 flights, with callsigns apart, and that all numbers are in their ranges. A
/// refusal is the first opening refusal that holds, with its value, or want of memory.
pub fn opening_problem(
    alloc: Global,
    aerodrome: &Aerodrome,
    flights: &[Flight],
) -> Result<Problem, BeginFault>
    requires { CanOpen aerodrome.now flights.now }
    ensures problem { IfOk result (IsProblemOf (opened aerodrome.now flights.now)) }
    ensures sound { IfOk result (λ _. IsSound (opened aerodrome.now flights.now)) }
    ensures openable { IfOk result (λ _. opening_fault aerodrome.now flights.now ≡ None) }
    ensures refused { IfErr result (IsRefusedBy (opening_fault aerodrome.now flights.now)) }
{
    let situation = opening(alloc, aerodrome, flights)?;
    let problem = problem_of(alloc, &situation)?;
    Ok(problem)
}
