ghost use Rattle.std.specs.Prelude.{◌≡◌};
ghost use Rattle.texts.specs.Parts.{objective_in};

use landing_rules::Objective;

/// The objective that a word names: `makespan` or `delay`.
pub fn objective_in(word: &[u8]) -> Option<Objective>
    ensures { result ≡ objective_in word.now }
{
    if word == b"makespan".as_slice() {
        Some(Objective::Makespan)
    } else if word == b"delay".as_slice() {
        Some(Objective::Delay)
    } else {
        None
    }
}
