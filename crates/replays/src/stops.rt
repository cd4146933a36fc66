use cps_outside::WriteFailed;
use std::alloc::AllocError;

/// Why a run over events stops before its end.
#[derive(Clone, Copy, Debug, PartialEq, Eq)]
pub enum Stop {
    /// A put failed.
    NotWritten,
    /// There was no memory.
    NoMemory,
}

impl From<AllocError> for Stop {
    ghost use Rattle.std.specs.Prelude.{◌≡◌};
    ghost use Rattle.replays.specs.declared.stops.Stop.TheVariants.{NoMemory};

    ghost from_gives = { λ _ stop. stop ≡ NoMemory };

    fn from(_: AllocError) -> Self {
        Stop::NoMemory
    }
}

impl From<WriteFailed> for Stop {
    ghost use Rattle.std.specs.Prelude.{◌≡◌};
    ghost use Rattle.replays.specs.declared.stops.Stop.TheVariants.{NotWritten};

    ghost from_gives = { λ _ stop. stop ≡ NotWritten };

    fn from(_: WriteFailed) -> Self {
        Stop::NotWritten
    }
}
