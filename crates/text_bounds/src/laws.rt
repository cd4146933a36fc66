//! The laws.

ghost use Rattle.text_bounds.specs.Blocks.{BlockIsBoundedLaw};
ghost use Rattle.text_bounds.specs.Certificates.{CertificateIsBoundedLaw};
ghost use Rattle.text_bounds.specs.Replays.{ReplayIsBoundedLaw};
ghost use Rattle.text_bounds.specs.Trials.{TrialIsBoundedLaw};
ghost use Rattle.text_bounds.specs.WholeCertificates.{LoadableIsShortLaw, WholeCertificateIsBoundedLaw};

use cert_check::whole_states_are_few;
use landing_joint::laws::every_step_keeps_soundness;
use plan_file::laws::printed_plans_read_back;

/// The block of a plan of n flights has at most 20 + 29n bytes. The call does nothing: it tells its caller the law.
pub fn plan_blocks_are_bounded()
    ensures { BlockIsBoundedLaw }
{
    printed_plans_read_back();
}

/// A certificate has at most 39 bytes, 21 more for each landing, 19 for each state and 18 for each pair. The call does nothing:
/// it tells its caller the law.
pub fn certificates_are_bounded()
    ensures { CertificateIsBoundedLaw }
{}

/// One that leaves nothing out has at most n landings and n times 1, 4, 18 or 80 states, for n waiting flights and k from 0 to 3,
/// and of each one pair for the makespan and 7,200 for delay. It has fewer than 16,777,216 bytes for the makespan; for
/// delay where k is 0, where k is 1 and n at most 32, and where k is 2 and n at most 7. The call does nothing: it tells its
/// caller the law.
pub fn whole_certificates_are_bounded()
    ensures bounded { WholeCertificateIsBoundedLaw }
    ensures loadable { LoadableIsShortLaw }
{
    whole_states_are_few();
}

/// The text of a run over e events, begun with n flights, has at most (e + 1) (50 + 29m) bytes, where m is the lesser of 500 and n + e.
/// The call does nothing: it tells its caller the law.
pub fn runs_are_bounded()
    ensures { ReplayIsBoundedLaw }
{
    printed_plans_read_back();
    every_step_keeps_soundness();
}

/// The summary of a trial has at most 50 bytes, where its numbers have two, one and eight digits at most. The call does nothing:
/// it tells its caller the law.
pub fn trial_summaries_are_bounded()
    ensures { TrialIsBoundedLaw }
{}
