// What `check` does with the texts of `certify`.
ghost use Rattle.cps_top.specs.AcceptedRuns.{PrintedRunsAcceptedLaw};
ghost use Rattle.certificate_commands.specs.Certify.{PrintedIsAcceptedLaw};
ghost use Rattle.certificate_commands.specs.Check.{CheckTextIsOneLaw};

use certificate_commands::check_accepts_printed_certificates;

/// A text that `certify` may print for two files `check` accepts, for the same files: it is not refused, and the line of what
/// the certificate claims is the one text that `check` may print of it. The command loads it where it has at most 16,777,216
/// bytes. The call does nothing: it tells its caller the law.
pub fn printed_certificates_are_accepted()
    ensures accepted { PrintedIsAcceptedLaw }

    // So a run of `check` over such files, none above 16,777,216 bytes, that is complete ends with status 0, or memory was short.
    ensures runs { PrintedRunsAcceptedLaw }

    // What `check` prints is a function of its three files' bytes, whoever wrote them.
    ensures one { CheckTextIsOneLaw }
{
    check_accepts_printed_certificates();
}
