use cps_base::Callsign;

/// Why a trial is not planned.
#[derive(Clone, Copy, Debug, PartialEq, Eq)]
pub enum TrialRefusal {
    /// The objective delay does not take this limit of shift in the version of the aerodrome file.
    DelayShift(u8),
    /// The number, from 1, of the first of the aerodrome file's passed-over counts that is above the limit.
    PassedAbove(u8),
    /// The closure holds a frozen landing: the flight of the earliest such landing, and its second.
    CoversFrozen(Callsign, u32),
    /// 32 closures stand.
    TooManyClosures,
}

/// What comes of a trial.
#[derive(Clone, Copy, Debug, PartialEq, Eq)]
pub enum Outcome {
    /// The least objective of a feasible schedule: a second, or weighted seconds of delay.
    Value(u64),
    /// No schedule is feasible.
    Infeasible,
    /// The trial is not planned, for this reason.
    Refused(TrialRefusal),
}
