//! The words of a line that says what is wrong.
ghost use Rattle.std.specs.Prelude.{◌≡◌, ◌∷◌, [], decimal};
ghost use Rattle.texts.specs.Words.{words_of, number_word, record_words};

use cps_base::NumberFault;

/// A word of a line that says what is wrong.
#[derive(Clone, Copy)]
pub enum Word<'a> {
    /// None: the line has fewer words than places for them.
    Absent,
    /// This text.
    Text(&'a [u8]),
    /// This number.
    Number(u32),
    /// This number and a colon.
    Place(u32),
}

/// The word for a text that is no number, or none of its range.
pub fn number_word(fault: NumberFault) -> &'static [u8]
    ensures { result.now ≡ number_word fault }
{
    match fault {
        NumberFault::NotNumber => b"not-number",
        NumberFault::Below => b"below",
        NumberFault::Above => b"above",
    }
}

/// One word about a field.
pub fn alone(word: &'static [u8]) -> [Word<'static>; 3]
    ensures { words_of result ≡ word.now ∷ [] }
{
    [Word::Text(word), Word::Absent, Word::Absent]
}

/// A word about a field, and the number of its part.
pub fn numbered(word: &'static [u8], part: u8) -> [Word<'static>; 3]
    ensures { words_of result ≡ word.now ∷ decimal part ∷ [] }
{
    [
        Word::Text(word),
        Word::Number(u32::from(part)),
        Word::Absent,
    ]
}

/// A field, and the words about it.
pub fn about(field: &'static [u8], words: [Word<'static>; 3]) -> [Word<'static>; 4]
    ensures { words_of result ≡ field.now ∷ words_of words.entry }
{
    let [first, second, third] = words;
    [Word::Text(field), first, second, third]
}

/// One word about a record.
pub fn whole(word: &'static [u8]) -> [Word<'static>; 4]
    ensures { words_of result ≡ word.now ∷ [] }
{
    [Word::Text(word), Word::Absent, Word::Absent, Word::Absent]
}

/// The record of this number, and the words about it.
pub fn in_record(number: u32, words: [Word<'static>; 4]) -> [Word<'static>; 6]
    ensures { words_of result ≡ record_words number (words_of words.entry) }
{
    let [first, second, third, fourth] = words;
    [
        Word::Text(b"record"),
        Word::Place(number),
        first,
        second,
        third,
        fourth,
    ]
}
