/// What a plan makes least, over all active flights. After Balakrishnan and Chandran (2010).
#[derive(Clone, Copy, Debug, PartialEq, Eq)]
pub enum Objective {
    /// The greatest landing second, and 0 with no flight.
    Makespan,
    /// The sum over the flights of weight times the seconds after the estimate.
    Delay,
}
