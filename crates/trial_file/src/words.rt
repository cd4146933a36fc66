// The words of the line that says why a file is not a trial file.
ghost use Rattle.std.specs.Prelude.{◌≡◌};
ghost use Rattle.texts.specs.Words.{words_of};
ghost use Rattle.trial_file.specs.Words.{cause_words, trial_words};

use crate::fault::{TrialCause, TrialFault};
use texts::{Word, about, in_record, whole};

impl TrialCause {
    // What is wrong with a record; of want of memory there is no word.
    fn words(self) -> [Word<'static>; 4]
        ensures { words_of result ≡ cause_words self }
    {
        match self {
            TrialCause::Header => whole(b"header"),
            TrialCause::FieldCount => whole(b"fields"),
            TrialCause::Kind => whole(b"kind"),
            TrialCause::Value(cause) => about(b"value", cause.words()),
            TrialCause::TooMany => whole(b"too-many"),
            TrialCause::Memory => [Word::Absent; 4],
        }
    }
}

impl TrialFault {
    /// What is wrong with the file, as its line says it.
    pub fn words(self) -> [Word<'static>; 6]
        ensures { words_of result ≡ trial_words self }
    {
        in_record(self.number, self.cause.words())
    }
}
