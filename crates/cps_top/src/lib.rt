//! The program over any folder, sinks and gate.
#![tactic(auto)]

mod commands;
mod laws;
mod real_runs;
mod top;

pub use commands::{Command, texts_are_bounded};
pub use laws::printed_certificates_are_accepted;
pub use real_runs::{Environment, RealRun, run_over};
pub use top::run;
