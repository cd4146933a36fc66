ghost use Rattle.std.specs.Prelude.{◌≡◌, IfOk};

use crate::frozen_list::FrozenList;
use crate::passed_list::PassedList;
use landing_rules::Objective;
use landing_windows::Closures;
use std::alloc::AllocError;
use wake_table::PairTable;

/// What an aerodrome file says.
#[derive(Drop)]
pub struct Aerodrome {
    /// The version of the file, 1 to 3.
    pub version: u8,
    /// The most places by which a flight may leave its first-come place, 0 to 3. With the objective delay it is at most 1
    /// in version 1, and at most 2 in later ones.
    pub k: u8,
    /// How many seconds ahead of the clock landings are frozen, 0 to 7,200.
    pub freeze: u32,
    /// What a plan makes least.
    pub objective: Objective,
    /// The separations between leaders and followers.
    pub table: PairTable,
    /// The closures of the runway, at most 32.
    pub closures: Closures,
    /// The last clock second, 0 to 172,799; none in version 1.
    pub clock: Option<u32>,
    /// The frozen landings, at most 500, each before the clock second plus `freeze`; none without a clock second.
    pub frozen: FrozenList,
    /// Whether flights keep a count of those that passed them: in version 3.
    pub carry: bool,
    /// These counts, at most `MOST_WAITING`; none where `carry` is false.
    pub passed: PassedList,
}

impl Aerodrome {
    /// The same aerodrome.
    pub fn copy(&self) -> Result<Aerodrome, AllocError>
        ensures { IfOk result (λ copied. copied ≡ self.now) }
    {
        let frozen = self.frozen.copy()?;
        let passed = self.passed.copy()?;
        Ok(Aerodrome {
            version: self.version,
            k: self.k,
            freeze: self.freeze,
            objective: self.objective,
            table: self.table,
            closures: self.closures,
            clock: self.clock,
            frozen,
            carry: self.carry,
            passed,
        })
    }
}
