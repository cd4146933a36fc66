ghost use Rattle.std.specs.Prelude.{◌≡◌, ◌≤◌};
ghost use Rattle.cps_base.specs.Limits.{most_waiting};
ghost use Rattle.certificate.specs.States.{IsState, state_cmp, comes_before};

use crate::pattern::Pattern;
use std::cmp::Ordering;
use std::marker::Model;

/// A state of a certificate: a stage, the pattern of the ranks that are placed round it, the rank at it, and its pairs
/// of a second and a cost. Contracts see these four (`State` of the specs).
///
/// The stage and the last rank are 1 to `MOST_WAITING`. There is at least one pair, each with a second up to 172,799 and a
/// cost up to 4,294,967,295; the seconds rise strictly and the costs fall strictly.
#[derive(Drop)]
pub struct CertState {
    stage: u8,
    pattern: Pattern,
    last: u8,
    pairs: Vec<(u32, u32)>,
}

impl Model for CertState {
    ghost use Rattle.certificate.specs.States.{State, IsState};

    ghost Value = { State };

    ghost view = { λ s. record {
      stage = s.stage;
      pattern = s.pattern;
      last = s.last;
      pairs = s.pairs.items;
    } };

    ghost invariant = { λ s. IsState (record
        { stage = s.stage; pattern = s.pattern; last = s.last; pairs = s.pairs.items }) };
}

impl CertState {
    /// The state of these parts, which are in the ranges and in the order of the type.
    pub fn new(stage: u8, pattern: Pattern, last: u8, pairs: Vec<(u32, u32)>) -> CertState
        requires { IsState (record {
          stage = stage;
          pattern = pattern;
          last = last;
          pairs = pairs.items;
        }) }
        ensures { result ≡ record {
          stage = stage;
          pattern = pattern;
          last = last;
          pairs = pairs.items;
        } }
    {
        CertState {
            stage,
            pattern,
            last,
            pairs,
        }
    }

    /// How many ranks are placed: 1 to `MOST_WAITING`.
    pub fn stage(&self) -> u8
        ensures value { result ≡ self.now.stage }
        ensures range { (1 ≤ result) × (result ≤ most_waiting) }
    {
        self.stage
    }

    /// Which ranks round the stage are placed.
    pub fn pattern(&self) -> Pattern
        ensures { result ≡ self.now.pattern }
    {
        self.pattern
    }

    /// The rank that is placed last: 1 to `MOST_WAITING`.
    pub fn last(&self) -> u8
        ensures value { result ≡ self.now.last }
        ensures range { (1 ≤ result) × (result ≤ most_waiting) }
    {
        self.last
    }

    /// The pairs of a second and a cost, one or more of them.
    pub fn pairs(&self) -> &[(u32, u32)]
        ensures value { result.now ≡ self.now.pairs }
        ensures state { IsState self.now }
    {
        self.pairs.as_slice()
    }

    // In which order two states stand: by stage, then by pattern, then by last rank.
    fn compare(&self, other: &CertState) -> Ordering
        ensures { result ≡ state_cmp self.now other.now }
    {
        self.stage
            .cmp(&other.stage)
            .then(self.pattern.cmp(&other.pattern))
            .then(self.last.cmp(&other.last))
    }
}

pub(crate) fn comes_before(a: &CertState, b: &CertState) -> bool
    ensures { result ≡ comes_before a.now b.now }
{
    a.compare(b).is_lt()
}
