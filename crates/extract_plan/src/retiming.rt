ghost use Rattle.std.specs.Prelude.{◌≡◌, ◌≤◌, IfOk, IsTrue, IsFalse, length, replicate};
ghost use Rattle.std.specs.List.{AllZip};
ghost use Rattle.cps_base.specs.Limits.{most_waiting};
ghost use Rattle.landing_rules.specs.Flights.{Schedule as Seconds};
ghost use Rattle.extract_plan.specs.Orders.{IsWholeOrder, LandsInOrder, EarliestInOrder};

use cps_problem::{Problem, Schedule};
use std::alloc::{AllocError, Global};

/// Lands the flights in this order, each at its first open second that the flights before it, the horizon and the last
/// frozen landing allow, and answers whether there are such seconds. The order has each rank once.
///
/// Where it answers true no seconds of this order land any flight earlier; it answers false exactly where there are none.
pub fn retime(problem: &Problem, order: &[u8], into: &mut Schedule) -> bool
    requires order { IsWholeOrder (length problem.now.flights) order.now }
    requires room { length into.old ≡ length problem.now.flights }
    ensures room { length into.new ≡ length into.old }
    ensures lands { IsTrue result → LandsInOrder problem.now order.now into.new }
    ensures least { IsTrue result → (seconds : Seconds)
        → LandsInOrder problem.now order.now seconds → AllZip ◌≤◌ into.new seconds }
    ensures none { IsFalse result → (seconds : Seconds)
        → LandsInOrder problem.now order.now seconds → ⊥ }
    ensures earliest { IsTrue result → EarliestInOrder problem.now order.now into.new }
{
    let flights = problem.len();
    prove!(order.len() == usize::from(flights));
    let mut last = 0u8;
    let mut second = 0u32;
    for rank in order {
        match problem.landing_after(last, second, *rank) {
            None => return false,
            Some(landing) => {
                into.set(*rank, landing);
                last = *rank;
                second = landing;
            }
        }
    }
    true
}

/// The schedule that lands each of n ranks at second 0. n is at most `MOST_WAITING`.
pub fn blank(alloc: Global, n: u8) -> Result<Schedule, AllocError>
    requires { n ≤ most_waiting }
    ensures { IfOk result (λ schedule. schedule ≡ replicate n 0) }
{
    let seconds = vec![in alloc; 0; n as usize]?;
    Ok(Schedule::of(seconds))
}
