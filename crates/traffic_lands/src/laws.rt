//! The laws.

ghost use Rattle.traffic_lands.specs.Landing.{TrafficLandsLaw, TrafficShowsPlanLaw};

/// A schedule is feasible for the traffic of each seed, whatever the bound on shifts: in first-come order, flight i lands 120(i - 1)
/// seconds after its estimate. Arrivals are 60 seconds apart or more, no separation of the sample table is above 180, and
/// the last flight's delay is at most 7,080 seconds, within its window. So each opening state of it shows a plan. The call does
/// nothing: it tells its caller the law.
pub fn traffic_can_land()
    ensures lands { TrafficLandsLaw }
    ensures shown { TrafficShowsPlanLaw }
{}
