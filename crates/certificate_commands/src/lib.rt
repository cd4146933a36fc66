//! The commands that print certificates and verdicts on them, over the bytes of their files.
#![tactic(auto)]

mod certify;
mod check;
mod laws;
mod verdict_lines;

pub use certify::run_certify;
pub use check::run_check;
pub use laws::{
    certificate_texts_are_bounded, check_accepts_printed_certificates,
    printed_certificates_differ_in_landings_alone,
};
