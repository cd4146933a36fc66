//! Certificates that a problem has an optimum or none, their text, and the text read back.
#![tactic(auto)]

mod certificate;
mod fault;
mod lines;
mod pattern;
mod printing;
mod reading;
mod state;

pub use certificate::{Certificate, Claim};
pub use fault::CertFault;
pub use pattern::Pattern;
pub use printing::print_certificate;
pub use reading::read_certificate;
pub use state::CertState;
