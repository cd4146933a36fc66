// The aerodrome of a trial.
ghost use Rattle.std.specs.Prelude.{◌≡◌, ◌≤◌};
ghost use Rattle.cps_base.specs.Limits.{greatest_k};
ghost use Rattle.arrivals.specs.Aerodromes.{IsInRange};
ghost use Rattle.wake_table.specs.Table.{sample_table};
ghost use Rattle.traffic_gen.specs.Sample.{aerodrome_with};

use arrivals::{Aerodrome, FrozenList, PassedList};
use landing_rules::Objective;
use landing_windows::Closures;
use std::alloc::Global;
use wake_table::{PairTable, SAMPLE};

// The sample table of separations.
#[tactic(auto, unfolding(wake_table::specs::Table::first_fault, wake_table::specs::Table::separation))]
fn sample_table() -> PairTable
    ensures { result ≡ sample_table }
{
    match PairTable::new(SAMPLE) {
        Ok(table) => table,
        Err(_) => unreachable!(),
    }
}

// The aerodrome with this bound on shifts.
pub(crate) fn aerodrome_with(alloc: Global, k: u8) -> Aerodrome
    requires { k ≤ greatest_k }
    ensures value { result ≡ aerodrome_with k }
    ensures range { IsInRange result }
{
    Aerodrome {
        version: 1,
        k,
        freeze: 0,
        objective: Objective::Makespan,
        table: sample_table(),
        closures: Closures::new(),
        clock: None,
        frozen: FrozenList::new(Vec::new(alloc)),
        carry: false,
        passed: PassedList::new(Vec::new(alloc)),
    }
}
