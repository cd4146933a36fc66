//! Laws of the definitions, each pinned by the contract of a function without a body.

ghost use Rattle.situations.specs.Refused.{OpeningLaw, PlainLaw};

/// The situation that an aerodrome and its flights open, where no opening fault is found, is a sound one.
pub fn opening_is_sound()
    ensures { OpeningLaw }
{}

/// An aerodrome without frozen landings and counts, and at most `MOST_WAITING` flights, have no opening fault.
pub fn plain_files_open()
    ensures { PlainLaw }
{}
