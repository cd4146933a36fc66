// The words of the line that says why a file is not an event log.
ghost use Rattle.std.specs.Prelude.{◌≡◌};
ghost use Rattle.texts.specs.Words.{words_of};
ghost use Rattle.event_log.specs.Words.{column_word, field_words, cause_words, event_words};

use crate::fault::{Col, FieldCause, LogCause, LogFault};
use texts::{Word, about, alone, in_record, number_word, whole};

impl Col {
    // The header's word.
    fn word(self) -> &'static [u8]
        ensures { result.now ≡ column_word self }
    {
        match self {
            Col::Callsign => b"callsign",
            Col::Category => b"category",
            Col::Eta => b"eta",
            Col::Weight => b"weight",
            Col::Windows => b"windows",
            Col::After => b"after",
        }
    }
}

impl FieldCause {
    /// What is wrong with the field.
    pub fn words(self) -> [Word<'static>; 3]
        ensures { words_of result ≡ field_words self }
    {
        match self {
            FieldCause::NotEmpty => alone(b"not-empty"),
            FieldCause::Bad => alone(b"bad"),
            FieldCause::Number(fault) => alone(number_word(fault)),
            FieldCause::Windows(cause) => cause.words(),
            FieldCause::After(cause) => cause.words(),
            FieldCause::EmptySpan => alone(b"empty"),
        }
    }
}

impl LogCause {
    // What is wrong with a record; of want of memory there is no word.
    fn words(self) -> [Word<'static>; 4]
        ensures { words_of result ≡ cause_words self }
    {
        match self {
            LogCause::Header => whole(b"header"),
            LogCause::FieldCount => whole(b"fields"),
            LogCause::Kind => whole(b"kind"),
            LogCause::Field(column, cause) => about(column.word(), cause.words()),
            LogCause::TooMany => whole(b"too-many"),
            LogCause::Memory => [Word::Absent; 4],
        }
    }
}

impl LogFault {
    /// What is wrong with the file, as its line says it.
    pub fn words(self) -> [Word<'static>; 6]
        ensures { words_of result ≡ event_words self }
    {
        in_record(self.number, self.cause.words())
    }
}
