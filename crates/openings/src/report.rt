ghost use Rattle.openings.specs.Follows.{Finishes};

use cps_outside::Sink;
use endings::{Answer, Ending};

/// A text to print, and what is answered with it.
#[derive(Drop)]
pub struct Report {
    /// The text.
    pub text: Vec<u8>,
    /// The answer.
    pub answer: Answer,
}

/// Puts the text of a report, in one put, and answers so, or says that the put failed; a command that came to none ends as
/// it did.
pub fn print_report<S: Sink>(out: &mut S, report: Result<Report, Ending>) -> Ending
    ensures { Finishes report (S.state out.old) (S.state out.new) result }
{
    match report {
        Err(ending) => ending,
        Ok(report) => match out.put(report.text.as_slice()) {
            Ok(()) => Ending::Answered(report.answer),
            Err(_) => Ending::NotWritten,
        },
    }
}
