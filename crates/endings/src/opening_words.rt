// The words of the line that says why files open no situation.
ghost use Rattle.std.specs.Prelude.{◌≡◌, ◌∷◌, [], decimal};
ghost use Rattle.texts.specs.Words.{words_of};
ghost use Rattle.endings.specs.Lines.{opening_words};

use situations::OpeningFault;
use texts::Word;

fn numbered<'a>(words: &'static [u8], n: u32) -> [Word<'a>; 3]
    ensures { words_of result ≡ words.now ∷ decimal n ∷ [] }
{
    [Word::Text(words), Word::Number(n), Word::Absent]
}

// What is wrong with an opening.
pub(crate) fn opening_words<'a>(fault: &'a OpeningFault) -> [Word<'a>; 3]
    ensures { words_of result ≡ opening_words fault.now }
{
    match fault {
        OpeningFault::UnknownFrozen(i) => numbered(b"opening: unknown-frozen", u32::from(*i)),
        OpeningFault::UnknownPassed(i) => numbered(b"opening: unknown-passed", u32::from(*i)),
        OpeningFault::TooManyWaiting(n) => numbered(b"too many waiting", *n),
        OpeningFault::FrozenClosed(i) => numbered(b"opening: frozen-closed", u32::from(*i)),
        OpeningFault::FrozenSeparation(i, j) => [
            Word::Text(b"opening: frozen-separation"),
            Word::Number(u32::from(*i)),
            Word::Number(u32::from(*j)),
        ],
        OpeningFault::FrozenPrecedence(i, callsign) => [
            Word::Text(b"opening: frozen-precedence"),
            Word::Number(u32::from(*i)),
            Word::Text(callsign.bytes()),
        ],
    }
}
