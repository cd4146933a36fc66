ghost use Rattle.std.specs.Prelude.{◌≡◌, ◌<◌, Some, length, map, slice_get};
ghost use Rattle.plan_file.specs.Shown.{shown_of};

use crate::landing::Landing;
use landing_rules::Objective;
use std::marker::Model;

/// The landing lines of a plan block. Contracts see what they show (`landing_rules`, `ShownLanding`).
#[derive(Drop)]
pub struct BlockLines {
    lines: Vec<Landing>,
}

impl Model for BlockLines {
    ghost use Rattle.std.specs.Prelude.{List, map};
    ghost use Rattle.landing_rules.specs.Text.{ShownLanding};
    ghost use Rattle.plan_file.specs.Shown.{shown_of};

    ghost Value = { List ShownLanding };

    ghost view = { λ b. map shown_of b.lines.items };
}

impl BlockLines {
    /// These lines.
    pub fn new(lines: Vec<Landing>) -> BlockLines
        ensures { result ≡ map shown_of lines.items }
    {
        BlockLines { lines }
    }

    /// How many there are.
    pub fn len(&self) -> usize
        ensures { result ≡ length self.now }
    {
        self.lines.len()
    }

    /// The line of this place, from 0.
    pub fn at(&self, i: usize) -> Landing
        requires { i < length self.now }
        ensures { slice_get self.now i ≡ Some (shown_of result) }
    {
        self.lines[i]
    }

    /// All of them.
    pub fn all(&self) -> &[Landing]
        ensures { map shown_of result.now ≡ self.now }
    {
        self.lines.as_slice()
    }
}

/// A plan block: what its first line says, and its landing lines.
#[derive(Drop)]
pub struct Block {
    /// The objective that its first line names.
    pub objective: Objective,
    /// The number behind it.
    pub value: u64,
    /// The landings.
    pub lines: BlockLines,
}
