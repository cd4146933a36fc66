/// The first condition of a certificate that fails. Ranks count from 1; states are numbered from 1 in their order, and the
/// start is number 0.
#[derive(Clone, Copy, Debug, PartialEq, Eq)]
pub enum Reason {
    /// The claim is an optimum, and the landings are not each waiting flight once; or it is none, and there is a landing.
    Flights,
    /// The least rank whose second is not open.
    Closed(u8),
    /// The least rank that lands before the horizon, or too close behind the last frozen landing.
    Early(u8),
    /// The first two ranks, the lower one first, that land too close to one another.
    Separation(u8, u8),
    /// The first two ranks of which the one must precede the other and does not.
    Precedence(u8, u8),
    /// The least rank that lands further ahead of its rank than the shift allows, or further behind it than the shift less
    /// the flights that passed it.
    Shift(u8),
    /// The objective of the landings, which is not the claimed one.
    Value(u64),
    /// The first state without the shape of one: its stage is above the number of flights; its pattern has not 2k digits of
    /// which k are 1, or has a 0 for a rank below 1 or a 1 for a rank above the last; or its last rank is above the last,
    /// more than k from its stage, or not placed.
    Shape(u32),
    /// The first state, and the least rank that may land next there, for which a successor pair has no listed pair that is
    /// no later and no dearer.
    Successor(u32, u8),
    /// The first state with all flights placed that contradicts the claim.
    Final(u32),
}

/// What a certificate shows of a problem.
#[derive(Clone, Copy, Debug, PartialEq, Eq)]
pub enum Verdict {
    /// The listed landings are feasible with this objective, and no feasible schedule has a smaller one.
    Optimal(u64),
    /// No schedule is feasible.
    Infeasible,
    /// It does not hold, and this is the first condition that fails.
    Rejected(Reason),
}
