// The problem of one flight, its copy, and its schedule.
ghost use Rattle.std.specs.Prelude.{◌≡◌, ◌≤◌, IfOk, length};

use super::assert_send_sync;
use cps_base::Callsign;
use cps_problem::{Head, Objective, Problem, Schedule, Waiting};
use extract_plan::{blank, retime, value_of};
use landing_windows::{Closures, OpenTimes, WindowSet};
use precedence::Pairs;
use std::alloc::{AllocError, Global};
use std::test::Fail;
use wake_table::{CATEGORY_COUNT, Category, PairTable};

fn problem_of_one(alloc: Global) -> Result<Problem, Fail>
    ensures { IfOk result (λ problem. length problem.flights ≡ 1) }
{
    let table = PairTable::new([[90; CATEGORY_COUNT]; CATEGORY_COUNT])?;
    let windows = WindowSet::new(alloc, &[(1000, 1200)])?;
    let callsign = Callsign::read(b"AB1").ok_or("not a callsign")?;
    let times = OpenTimes::of(alloc, &windows, &Closures::new())?;
    let mut waiting = Vec::new(alloc);
    waiting.push(Waiting {
        callsign,
        category: Category::B,
        eta: 1000,
        weight: 3,
        passed: 0,
        times,
    })?;
    let head = Head {
        table,
        k: 0,
        objective: Objective::Delay,
        horizon: 1010,
        last: Some((1000, Category::A)),
        base: 5,
    };
    Ok(Problem::build(head, waiting, Pairs::new()))
}

// The open seconds from two seconds on.
fn open_spans(problem: &Problem) -> (Option<(u32, u32)>, Option<(u32, u32)>)
    requires { length problem.now.flights ≡ 1 }
{
    (problem.open_span(1, 900), problem.open_span(1, 1201))
}

// The value of the flight's landing, where it lands at this second.
fn value_landed(alloc: Global, problem: &Problem, second: u32) -> Result<Option<u64>, AllocError>
    requires flights { length problem.now.flights ≡ 1 }
    requires second { second ≤ 172799 }
{
    let mut schedule = blank(alloc, 1)?;
    if !retime(problem, &[1], &mut schedule) {
        return Ok(None);
    }
    if schedule.second(1) != second {
        return Ok(None);
    }
    Ok(Some(value_of(problem, &schedule)))
}

#[test]
fn a_problem_and_its_copy_land_a_flight(rt: HostRuntime) -> Result<(), Fail> {
    let problem = problem_of_one(rt.alloc())?;
    assert_send_sync(&problem);
    assert_eq!(rt; value_landed(rt.alloc(), &problem, 1090)?, Some(275));
    let copied = problem.copy()?;
    assert_eq!(rt; problem.first_difference(&copied), 2);
    assert_eq!(rt; copied.len(), 1);
    assert_eq!(rt; copied.landing_after(0, 0, 1), Some(1090));
    assert_eq!(rt; open_spans(&copied), (Some((1000, 1200)), None));
    assert_eq!(rt; copied.cost(1, 1090), 270);
    Ok(())
}

#[test]
fn a_second_is_set(rt: HostRuntime) -> Result<(), Fail> {
    let mut schedule = Schedule::of(vec![in rt.alloc(); 0; 3]?);
    schedule.set(2, 70);
    assert_eq!(rt;
        (schedule.second(1), schedule.second(2), schedule.len()),
        (0, 70, 3)
    );
    Ok(())
}
