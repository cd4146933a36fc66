//! What holds of the texts of `certify` and `check`, as laws over the bytes of their files.

ghost use Rattle.certificate_commands.specs.Certify.{PrintedIsAcceptedLaw};
ghost use Rattle.certificate_commands.specs.Check.{CheckTextIsOneLaw};
ghost use Rattle.certificate_commands.specs.TextLaws.{CertifyIsBoundedLaw, CertifyIsLoadableLaw, CertifyTextsLaw, CheckIsBoundedLaw};

use cert_check::{situation_has_one_list_of_states, situation_has_one_verdict};
use text_bounds::whole_certificates_are_bounded;

/// A text that `certify` may print for two files `check` accepts, for the same files: it is not refused, and the line of what
/// the certificate claims is the one text that `check` may print of it. The command `check` loads it where it has at most
/// 16,777,216 bytes. The call does nothing: it tells its caller the law.
pub fn check_accepts_printed_certificates()
    ensures accepted { PrintedIsAcceptedLaw }

    // What `check` prints is a function of its three files' bytes, whoever wrote them.
    ensures one { CheckTextIsOneLaw }
{
    situation_has_one_verdict();
}

/// Two texts that `certify` may print for the same files differ in nothing but the landing lines of an optimal answer. The call
/// does nothing: it tells its caller the law.
pub fn printed_certificates_differ_in_landings_alone()
    ensures { CertifyTextsLaw }
{
    situation_has_one_list_of_states();
}

/// How many bytes `certify` and `check` print at most: by the objective, k and the number of flights, with up to `MOST_WAITING` that
/// wait; and 33. For the makespan a certificate has fewer than 16,777,216 bytes, so that `check` loads it; for delay where k is 0, where k
/// is 1 and there are at most 32 flights, and where k is 2 and at most 7. The call does nothing: it tells its caller the law.
pub fn certificate_texts_are_bounded()
    ensures certify { CertifyIsBoundedLaw }
    ensures check { CheckIsBoundedLaw }
    ensures loadable { CertifyIsLoadableLaw }
{
    whole_certificates_are_bounded();
}
