// The words of the line that says why a file is not an aerodrome file.
ghost use Rattle.std.specs.Prelude.{◌≡◌, ◌∷◌, [], decimal};
ghost use Rattle.texts.specs.Words.{words_of};
ghost use Rattle.wake_table.specs.Letters.{letter_text};
ghost use Rattle.aerodrome_file.specs.Words.{key_words, part_words, unknown_words, table_words, closure_words};
ghost use Rattle.aerodrome_file.specs.Words.{aerodrome_words};

use crate::fault::{AeroFault, Key, Part};
use landing_windows::ClosureFault;
use texts::Word;
use wake_table::{Category, TableFault};

// A word and the number of a closure or an entry.
fn numbered<'a>(word: &'static [u8], i: u16) -> [Word<'a>; 2]
    ensures { words_of result ≡ word.now ∷ decimal i ∷ [] }
{
    [Word::Text(word), Word::Number(u32::from(i))]
}

fn one<'a>(word: &'static [u8]) -> [Word<'a>; 2]
    ensures { words_of result ≡ word.now ∷ [] }
{
    [Word::Text(word), Word::Absent]
}

fn letter<'a>(category: Category) -> Word<'a>
    ensures { words_of (result ∷ []) ≡ letter_text category ∷ [] }
{
    Word::Text(category.letter_text().as_bytes())
}

impl Key {
    // The key's name, and the letter of its row or the number of its closure or entry.
    fn words<'a>(self) -> [Word<'a>; 2]
        ensures { words_of result ≡ key_words self }
    {
        match self {
            Key::Version => one(b"version"),
            Key::K => one(b"k"),
            Key::Freeze => one(b"freeze"),
            Key::Objective => one(b"objective"),
            Key::Table => one(b"table"),
            Key::Row(leader) => [Word::Text(b"row"), letter(leader)],
            Key::Closures => one(b"closures"),
            Key::From(i) => numbered(b"from", u16::from(i)),
            Key::To(i) => numbered(b"to", u16::from(i)),
            Key::Clock => one(b"clock"),
            Key::Frozen => one(b"frozen"),
            Key::FrozenCallsign(i) => numbered(b"callsign", i),
            Key::FrozenSecond(i) => numbered(b"second", i),
            Key::Passed => one(b"passed"),
            Key::PassedCallsign(i) => numbered(b"callsign", u16::from(i)),
            Key::PassedCount(i) => numbered(b"count", u16::from(i)),
        }
    }
}

impl Part {
    // The part, and its number.
    fn words<'a>(self) -> [Word<'a>; 2]
        ensures { words_of result ≡ part_words self }
    {
        match self {
            Part::Top => none(),
            Part::Table => one(b"table"),
            Part::Closure(i) => numbered(b"closure", u16::from(i)),
            Part::Frozen(i) => numbered(b"frozen", i),
            Part::Passed(i) => numbered(b"passed", u16::from(i)),
        }
    }
}

fn table_words<'a>(fault: TableFault) -> [Word<'a>; 5]
    ensures { words_of result ≡ table_words fault }
{
    let (word, a, b, c) = match fault {
        TableFault::OutOfRange(leader, follower) => {
            (
                Word::Text(b"range"),
                letter(leader),
                letter(follower),
                Word::Absent,
            )
        }
        TableFault::Triangle(a, b, c) => (Word::Text(b"triangle"), letter(a), letter(b), letter(c)),
    };
    [Word::Text(b"table"), word, a, b, c]
}

fn closure_words<'a>(i: u8, fault: ClosureFault) -> [Word<'a>; 2]
    ensures { words_of result ≡ closure_words i fault }
{
    let word = match fault {
        ClosureFault::Empty => Word::Text(b"empty"),
        ClosureFault::TooMany => Word::Text(b"too-many"),
    };
    [Word::Number(u32::from(i)), word]
}

fn none<'a>() -> [Word<'a>; 2]
    ensures { words_of result ≡ [] }
{
    [Word::Absent; 2]
}

// A word and those behind it.
fn led<'a>(word: &'static [u8], rest: [Word<'a>; 2]) -> [Word<'a>; 5]
    ensures { words_of result ≡ word.now ∷ words_of rest.entry }
{
    let [first, second] = rest;
    [Word::Text(word), first, second, Word::Absent, Word::Absent]
}

fn unknown_words<'a>(part: Part, key: &'a [u8]) -> [Word<'a>; 5]
    ensures { words_of result ≡ unknown_words part key.now }
{
    let [name, number] = part.words();
    [
        Word::Text(b"unknown key"),
        name,
        number,
        Word::Text(key),
        Word::Absent,
    ]
}

impl AeroFault {
    /// What is wrong with the file, as its line says it; of want of memory there is no word.
    pub fn words(&self) -> [Word<'_>; 5]
        ensures { words_of result ≡ aerodrome_words self.now }
    {
        match self {
            AeroFault::NotToml => led(b"not toml", none()),
            AeroFault::MissingKey(key) => led(b"missing", key.words()),
            AeroFault::UnknownKey(part, key) => unknown_words(*part, key.bytes()),
            AeroFault::WrongKind(key) => led(b"kind", key.words()),
            AeroFault::OutOfRange(key) => led(b"range", key.words()),
            AeroFault::Table(fault) => table_words(*fault),
            AeroFault::Closure(i, fault) => led(b"closure", closure_words(*i, *fault)),
            AeroFault::FrozenTooMany => led(b"frozen", one(b"too-many")),
            AeroFault::FrozenNoClock => led(b"frozen", one(b"no-clock")),
            AeroFault::FrozenRepeat(i) => led(b"frozen", numbered(b"repeat", *i)),
            AeroFault::FrozenLate(i) => led(b"frozen", numbered(b"late", *i)),
            AeroFault::PassedTooMany => led(b"passed", one(b"too-many")),
            AeroFault::PassedRepeat(i) => led(b"passed", numbered(b"repeat", u16::from(*i))),
            AeroFault::DelayShift(k) => led(b"delay", numbered(b"shift", u16::from(*k))),
            AeroFault::Memory => [Word::Absent; 5],
        }
    }
}
