//! The law of its texts.

ghost use Rattle.replays.specs.OneText.{StepsAreOneLaw};

/// The steps that are printed for a run are those of that run: two efforts from one state, with the same answers and the same states
/// after it, have one text, whichever problems of these states were planned. The call does nothing: it tells its caller the law.
pub fn steps_are_one()
    ensures { StepsAreOneLaw }
{}
