// Whether two landings are the table's time apart.
ghost use Rattle.std.specs.Prelude.{◌≡◌};
ghost use Rattle.landing_rules.specs.Flights.{landing};
ghost use Rattle.landing_rules.specs.Testing.{is_pair_separated};
ghost use Rattle.landing_rules.specs.Audit.{are_apart};

use crate::Active;
use wake_table::PairTable;

// Whether the other landing is at least the table's time after the first, where it is not before it.
fn is_pair_separated(
    table: &PairTable,
    first: &Active,
    at: u32,
    other: &Active,
    other_at: u32,
) -> bool
    ensures { result ≡ is_pair_separated table.now (landing first.now at)
        (landing other.now other_at) }
{
    let leader = &first.flight;
    let follower = &other.flight;
    let apart = u64::from(table.sep(leader.category, follower.category));
    leader.callsign == follower.callsign
        || other_at < at
        || u64::from(at) + apart <= u64::from(other_at)
}

/// Whether the first flight, landing at the second `at`, and the other, landing at the second `other_at`, are the table's
/// time apart, whichever lands earlier.
pub fn are_apart(table: &PairTable, first: &Active, at: u32, other: &Active, other_at: u32) -> bool
    ensures { result ≡ are_apart table.now (landing first.now at) (landing other.now other_at) }
{
    is_pair_separated(table, first, at, other, other_at)
        && is_pair_separated(table, other, other_at, first, at)
}
