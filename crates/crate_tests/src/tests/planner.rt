ghost use Rattle.std.specs.Prelude.{◌≡◌, ◌≤◌, IfOk};
ghost use Rattle.cps_problem.specs.Plans.{IsPlannable};
ghost use Rattle.replan.specs.Kept.{k_of};

use super::assert_send_sync;
use crate::bank::Bank;
use cps_base::{Counted, Steps};
use cps_outside::FreeGate;
use cps_problem::{Objective, Problem};
use replan::AnyKept;
use std::alloc::Global;
use std::test::Fail;
use std::thread::Threads;
use wake_table::Category;

// For one place of shift, three flights of which the third has this category, and one long behind them where it is asked for.
fn three_or_four(alloc: Global, third: Category, with_last: bool) -> Result<Bank, Fail>
    ensures { IfOk result (λ bank. bank.k ≡ 1) }
{
    let mut bank = Bank::new(alloc, 1);
    bank.add(b"A1", Category::A, 0, 1000, 6000)?;
    bank.add(b"A2", Category::A, 0, 1001, 6000)?;
    bank.add(b"F1", third, 0, 1010, 6000)?;
    if with_last {
        bank.add(b"E9", Category::E, 0, 5000, 6000)?;
    }
    Ok(bank)
}

// How many steps it takes to plan a problem.
fn steps<R: Threads + Sync>(
    rt: &R,
    alloc: Global,
    planner: &mut AnyKept,
    problem: &Problem,
) -> Result<u64, Fail>
    requires same_k { problem.now.k ≡ k_of planner.old }
    requires plannable { IsPlannable problem.now }
    ensures k { k_of planner.new ≡ k_of planner.old }
{
    let mut steps = Steps::new(Counted::new());
    let plan = planner.replan(rt, alloc, problem, &FreeGate, &mut steps)?;
    if plan.is_none() {
        return Err(Fail::new("no plan"));
    }
    Ok(steps.ledger().value())
}

// How many steps it takes to plan these three or four flights.
fn steps_of<R: Threads + Sync>(
    rt: &R,
    alloc: Global,
    planner: &mut AnyKept,
    flights: (Category, bool),
    objective: Objective,
) -> Result<u64, Fail>
    requires { k_of planner.old ≡ 1 }
    ensures { k_of planner.new ≡ k_of planner.old }
{
    let problem = three_or_four(alloc, flights.0, flights.1)?.problem(objective, 0, 1)?;
    steps(rt, alloc, planner, &problem)
}

// The third flight's category, whether there is a fourth, the objective, and the steps.
const PLANNINGS: [(Category, bool, Objective, u64); 7] = [
    (Category::F, false, Objective::Makespan, 8),
    (Category::F, true, Objective::Makespan, 10),
    (Category::E, true, Objective::Makespan, 13),
    (Category::E, false, Objective::Makespan, 3),
    (Category::E, false, Objective::Delay, 8),
    (Category::E, false, Objective::Delay, 3),
    (Category::E, true, Objective::Makespan, 15),
];

#[test]
fn stages_in_common_are_not_counted(rt: HostRuntime) -> Result<(), Fail> {
    let mut planner = AnyKept::fresh(1);
    assert_send_sync(&planner);
    for (third, with_last, objective, expected) in PLANNINGS {
        let flights = (third, with_last);
        let value = steps_of(&rt, rt.alloc(), &mut planner, flights, objective)?;
        assert_eq!(rt; value, expected);
    }
    Ok(())
}

// The problem of 20 flights that may land until second 8199.
fn twenty(alloc: Global, k: u8) -> Result<Problem, Fail>
    requires { k ≤ 3 }
    ensures k { IfOk result (λ problem. problem.k ≡ k) }
    ensures plannable { IfOk result IsPlannable }
{
    let mut bank = Bank::new(alloc, k);
    for number in 0..20u8 {
        bank.add_numbered(number, 0)?;
    }
    Ok(bank.problem(Objective::Makespan, 0, 1)?)
}

// How many steps it takes to plan the twenty flights.
fn steps_of_twenty<R: Threads + Sync>(rt: &R, alloc: Global, k: u8) -> Result<u64, Fail>
    requires { k ≤ 3 }
{
    let problem = twenty(alloc, k)?;
    steps(rt, alloc, &mut AnyKept::fresh(k), &problem)
}

#[test]
fn a_planning_ticks_once_a_candidate(rt: HostRuntime) -> Result<(), Fail> {
    for (k, candidates) in [(0u8, 20u64), (1, 143), (2, 4794), (3, 365071)] {
        let steps = steps_of_twenty(&rt, rt.alloc(), k)?;
        assert_eq!(rt; steps, candidates, "{k}");
    }
    Ok(())
}
