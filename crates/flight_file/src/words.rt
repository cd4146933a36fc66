// The words of the line that says why a file is not a flight file.
ghost use Rattle.std.specs.Prelude.{◌≡◌};
ghost use Rattle.texts.specs.Words.{words_of};
ghost use Rattle.flight_file.specs.Words.{windows_words, after_words, cause_words, flight_words};

use crate::fault::{AfterCause, FlightCause, FlightFault, WindowsCause};
use landing_windows::WindowFault;
use texts::{Word, about, alone, in_record, number_word, numbered, whole};

impl WindowsCause {
    /// What is wrong with the windows.
    pub fn words(self) -> [Word<'static>; 3]
        ensures { words_of result ≡ windows_words self }
    {
        match self {
            WindowsCause::Shape(i) => numbered(b"shape", i),
            WindowsCause::Number(i, fault) => [
                Word::Text(b"number"),
                Word::Number(u32::from(i)),
                Word::Text(number_word(fault)),
            ],
            WindowsCause::Set(WindowFault::Empty) => alone(b"none"),
            WindowsCause::Set(WindowFault::TooMany) => alone(b"too-many"),
            WindowsCause::Set(WindowFault::Backward(i)) => numbered(b"backward", i),
            WindowsCause::Set(WindowFault::Overlap(i)) => numbered(b"overlap", i),
            WindowsCause::Set(WindowFault::TooLong) => alone(b"too-long"),
        }
    }
}

impl AfterCause {
    /// What is wrong with the predecessors.
    pub fn words(self) -> [Word<'static>; 3]
        ensures { words_of result ≡ after_words self }
    {
        match self {
            AfterCause::TooMany => alone(b"too-many"),
            AfterCause::Callsign(i) => numbered(b"callsign", i),
            AfterCause::Itself(i) => numbered(b"itself", i),
            AfterCause::Repeat(i) => numbered(b"repeat", i),
        }
    }
}

impl FlightCause {
    // What is wrong with a record; of want of memory there is no word.
    fn words(self) -> [Word<'static>; 4]
        ensures { words_of result ≡ cause_words self }
    {
        match self {
            FlightCause::Header => whole(b"header"),
            FlightCause::FieldCount => whole(b"fields"),
            FlightCause::Callsign => whole(b"callsign"),
            FlightCause::Category => whole(b"category"),
            FlightCause::Eta(fault) => about(b"eta", alone(number_word(fault))),
            FlightCause::Weight(fault) => about(b"weight", alone(number_word(fault))),
            FlightCause::Windows(cause) => about(b"windows", cause.words()),
            FlightCause::After(cause) => about(b"after", cause.words()),
            FlightCause::Duplicate => whole(b"duplicate"),
            FlightCause::TooMany => whole(b"too-many"),
            FlightCause::Memory => [Word::Absent; 4],
        }
    }
}

impl FlightFault {
    /// What is wrong with the file, as its line says it.
    pub fn words(self) -> [Word<'static>; 6]
        ensures { words_of result ≡ flight_words self }
    {
        in_record(self.number, self.cause.words())
    }
}
