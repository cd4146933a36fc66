//! Laws of the definitions, each pinned by the contract of a function without a body.

ghost use Rattle.landing_rules.specs.Laws.{RankLaw, TightLaw, MakespanLaw, DelayLaw};
ghost use Rattle.landing_rules.specs.Text.{BlockLaw};

/// Where the callsigns differ, the ranks are a bijection onto 1 to n.
pub fn rank_is_a_bijection()
    ensures { RankLaw }
{}

/// A landing order has at most one tight schedule.
pub fn order_has_one_tight_schedule()
    ensures { TightLaw }
{}

/// The makespan is at least each landing's second.
pub fn makespan_bounds_each_second()
    ensures { MakespanLaw }
{}

/// The delay is at least each landing's own.
pub fn delay_bounds_each_delay()
    ensures { DelayLaw }
{}

/// A plan block tells which plan it shows: two plans with one text are one.
pub fn block_tells_plan()
    ensures { BlockLaw }
{}
