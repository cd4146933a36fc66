ghost use Rattle.std.specs.Prelude.{◌≡◌};
ghost use Rattle.certificate.specs.Reading.{IsCertificate};

use crate::state::CertState;
use cps_base::Callsign;
use std::marker::Model;

/// What a certificate claims of a problem.
#[derive(Clone, Copy, Debug, PartialEq, Eq)]
pub enum Claim {
    /// The least objective of all feasible schedules, from 0 to 8,639,950,000.
    Optimal(u64),
    /// No schedule is feasible.
    Infeasible,
}

/// A claim, the landings that it rests on, and the states in ascending order by stage, pattern and last rank. Contracts
/// see these three (`Cert` of the specs).
///
/// A landing is a callsign and a second up to 172,799. There are fewer than 4,294,967,295 states.
#[derive(Drop)]
pub struct Certificate {
    claim: Claim,
    landings: Vec<(Callsign, u32)>,
    states: Vec<CertState>,
}

impl Model for Certificate {
    ghost use Rattle.certificate.specs.Reading.{Cert, IsCertificate};

    ghost Value = { Cert };

    ghost view = { λ c. record {
      claim = c.claim;
      landings = c.landings.items;
      states = c.states.items;
    } };

    ghost invariant = { λ c. IsCertificate
        (record { claim = c.claim; landings = c.landings.items; states = c.states.items }) };
}

impl Certificate {
    /// The certificate of these parts, which are in the ranges and in the order of the type.
    pub fn new(claim: Claim, landings: Vec<(Callsign, u32)>, states: Vec<CertState>) -> Certificate
        requires { IsCertificate (record {
          claim = claim;
          landings = landings.items;
          states = states.items;
        }) }
        ensures { result ≡ record {
          claim = claim;
          landings = landings.items;
          states = states.items;
        } }
    {
        Certificate {
            claim,
            landings,
            states,
        }
    }

    /// What it claims.
    pub fn claim(&self) -> Claim
        ensures value { result ≡ self.now.claim }
        ensures certificate { IsCertificate self.now }
    {
        self.claim
    }

    /// The landings, in the order of the text.
    pub fn landings(&self) -> &[(Callsign, u32)]
        ensures value { result.now ≡ self.now.landings }
        ensures certificate { IsCertificate self.now }
    {
        self.landings.as_slice()
    }

    /// The states, ascending.
    pub fn states(&self) -> &[CertState]
        ensures value { result.now ≡ self.now.states }
        ensures certificate { IsCertificate self.now }
    {
        self.states.as_slice()
    }
}
