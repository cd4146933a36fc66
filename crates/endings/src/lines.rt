// The statuses and the lines on the standard error. A line is written word by word and takes no memory.
ghost use Rattle.std.specs.Prelude.{◌≡◌, ◌∷◌, [], ◌++◌, codes, decimal};
ghost use Rattle.cps_outside.specs.SinkState.{Writes};
ghost use Rattle.texts.specs.Words.{word_text, words_of};
ghost use Rattle.endings.specs.Lines.{KeepsQuiet, Says, line_of, line_text, spaced, refusal_words, status_of};

use crate::opening_words::opening_words;
use crate::{Answer, Ending, FilesFault};
use cps_outside::{Sink, WriteFailed};
use itoa::Buffer;
use texts::Word;

/// The status of an ending, 0 to 8.
pub fn status(ending: &Ending) -> u8
    ensures { result ≡ status_of ending.now }
{
    match ending {
        Ending::Answered(Answer::Scheduled | Answer::Certified | Answer::Accepted) => 0,
        Ending::Answered(Answer::Tried | Answer::Clean) => 0,
        Ending::Answered(Answer::Infeasible | Answer::Claimed) => 1,
        Ending::Answered(Answer::Rejected | Answer::Broken) => 7,
        Ending::Misused => 2,
        Ending::Refused(_) => 3,
        Ending::NotLoaded(_) => 4,
        Ending::NotWritten => 5,
        Ending::TooLong(_) => 6,
        Ending::NoMemory => 8,
    }
}

// Puts a blank and this text.
fn put_text<E: Sink>(err: &mut E, text: &[u8]) -> Result<(), WriteFailed>
    ensures { Writes (E.state err.old) (E.state err.new) (codes " " ++ text.now) result }
{
    err.put(b" ")?;
    err.put(text)
}

// Puts a blank, this number and a colon.
fn put_place<E: Sink>(err: &mut E, n: u32) -> Result<(), WriteFailed>
    ensures { Writes (E.state err.old) (E.state err.new) (codes " " ++ (decimal n ++ codes ":")) result }
{
    put_text(err, Buffer::new().format(n).as_bytes())?;
    err.put(b":")
}

// Puts a word behind a blank, if there is one.
fn put_word<E: Sink>(err: &mut E, word: Word) -> Result<(), WriteFailed>
    ensures { Writes (E.state err.old) (E.state err.new) (spaced (word_text word.entry)) result }
{
    match word {
        Word::Absent => Ok(()),
        Word::Text(text) => put_text(err, text),
        Word::Number(n) => put_text(err, Buffer::new().format(n).as_bytes()),
        Word::Place(n) => put_place(err, n),
    }
}

// Puts words, each behind a blank. The first put that fails is the last.
fn put_words<E: Sink>(err: &mut E, words: &[Word]) -> Result<(), WriteFailed>
    ensures { Writes (E.state err.old) (E.state err.new) (spaced (words_of words.now)) result }
{
    for word in words {
        put_word(err, *word)?;
    }
    Ok(())
}

// Writes the line of these words.
fn say_words<E: Sink>(err: &mut E, first: Word, words: &[Word]) -> Result<(), WriteFailed>
    ensures { Writes (E.state err.old) (E.state err.new)
        (line_text (words_of (first.entry ∷ words.now))) result }
{
    err.put(b"cps:")?;
    put_word(err, first)?;
    put_words(err, words)?;
    err.put(b"\n")
}

fn say_refusal<E: Sink>(err: &mut E, refusal: &FilesFault) -> Result<(), WriteFailed>
    ensures { Writes (E.state err.old) (E.state err.new) (line_text (refusal_words refusal.now)) result }
{
    match refusal {
        FilesFault::Aerodrome(fault) => say_words(err, Word::Text(b"aerodrome:"), &fault.words()),
        FilesFault::Flights(fault) => say_words(err, Word::Text(b"flights:"), &fault.words()),
        FilesFault::Events(fault) => say_words(err, Word::Text(b"events:"), &fault.words()),
        FilesFault::Certificate(fault) => say_words(
            err,
            Word::Text(b"certificate:"),
            &fault.words(),
        ),
        FilesFault::Opening(fault) => say_words(err, Word::Absent, &opening_words(fault)),
        FilesFault::Trials(fault) => say_words(err, Word::Text(b"trials:"), &fault.words()),
        FilesFault::Plan(fault) => say_words(err, Word::Text(b"plan:"), &fault.words()),
    }
}

fn say_line<E: Sink>(err: &mut E, ending: &Ending) -> Result<(), WriteFailed>
    ensures writes { Writes (E.state err.old) (E.state err.new) (line_of ending.now) result }
    ensures quiet { KeepsQuiet ending.now (E.state err.old) (E.state err.new) }
{
    match ending {
        Ending::Answered(_) => Ok(()),
        Ending::Misused => say_words(err, Word::Text(b"usage"), &[]),
        Ending::Refused(refusal) => say_refusal(err, refusal),
        Ending::NotLoaded(place) => say_words(
            err,
            Word::Text(b"file"),
            &[Word::Place(*place), Word::Text(b"failed")],
        ),
        Ending::NotWritten => say_words(err, Word::Text(b"write failed"), &[]),
        Ending::TooLong(place) => say_words(
            err,
            Word::Text(b"file"),
            &[Word::Place(*place), Word::Text(b"too long")],
        ),
        Ending::NoMemory => say_words(err, Word::Text(b"no memory"), &[]),
    }
}

/// Writes the line of an ending; of an answer it puts nothing.
pub fn say<E: Sink>(err: &mut E, ending: &Ending) -> Result<(), WriteFailed>
    ensures writes { Writes (E.state err.old) (E.state err.new) (line_of ending.now) result }
    ensures quiet { KeepsQuiet ending.now (E.state err.old) (E.state err.new) }

    // What a caller knows that lets the result go.
    ensures says { Says (E.state err.old) (E.state err.new) (line_of ending.now) }
{
    say_line(err, ending)
}
