//! The successor of a pair.

ghost use Rattle.std.specs.Prelude.{◌≡◌, IfSome};
ghost use Rattle.cps_network.specs.Pairs.{successor};
ghost use Rattle.stage_landings.specs.Reach.{IsInReach, MayLead};
ghost use Rattle.delay_labels.specs.Bounds.{IsInDays, IsLeading};

use stage_landings::StageLandings;

// The successor of a pair of a rank, by another: where that one lands behind it, and what both cost.
pub(crate) fn successor_of(
    landings: &StageLandings<'_>,
    last: u8,
    pair: (u32, u32),
    rank: u8,
) -> Option<(u32, u32)>
    requires last { MayLead landings.now.problem landings.now.number last }
    requires rank { IsInReach landings.now.problem landings.now.number rank }
    requires pair { IsLeading landings.now.problem last pair }
    ensures value { result ≡ successor landings.now.problem last pair rank }
    ensures in_days { IfSome result IsInDays }
{
    let second = landings.landing_after(last, pair.0, rank)?;
    Some((second, pair.1 + landings.cost(rank, second)))
}
