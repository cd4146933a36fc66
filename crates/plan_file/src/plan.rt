use crate::block::Block;
use std::alloc::{AllocError, AllocFailed};
use texts::Word;
use thiserror::Error;

/// What a plan file says.
#[derive(Drop)]
pub enum PlanText {
    /// That there is no plan: the one line `infeasible`.
    Nothing,
    /// A plan.
    Block(Block),
}

/// Why a text is not a plan. Lines are numbered from 1.
#[derive(Clone, Copy, Debug, PartialEq, Eq, Error)]
pub enum PlanFault {
    /// The line is the first that is not of its form, does not end with a line feed, or is one line too many.
    #[error("line {0} is not of its form")]
    Line(u32),
    /// Memory ran out.
    #[error("out of memory")]
    Memory,
}

impl From<AllocError> for PlanFault {
    ghost use Rattle.std.specs.Prelude.{◌≡◌};
    ghost use Rattle.plan_file.specs.declared.plan.PlanFault.TheVariants.{Memory};

    ghost from_gives = { λ _ e. e ≡ Memory };

    fn from(_: AllocError) -> Self {
        PlanFault::Memory
    }
}

impl<T: Drop> From<AllocFailed<T>> for PlanFault {
    ghost use Rattle.std.specs.Prelude.{◌≡◌};
    ghost use Rattle.plan_file.specs.declared.plan.PlanFault.TheVariants.{Memory};

    ghost from_gives = { λ _ e. e ≡ Memory };

    fn from(_: AllocFailed<T>) -> Self {
        PlanFault::Memory
    }
}

impl PlanFault {
    ghost use Rattle.std.specs.Prelude.{◌≡◌};
    ghost use Rattle.texts.specs.Words.{words_of};
    ghost use Rattle.plan_file.specs.Words.{plan_words};

    /// What is wrong with the file, as its line says it; of want of memory there is no word.
    pub fn words(self) -> [Word<'static>; 2]
        ensures { words_of result ≡ plan_words self }
    {
        match self {
            PlanFault::Line(line) => [Word::Text(b"line"), Word::Number(line)],
            PlanFault::Memory => [Word::Absent; 2],
        }
    }
}
