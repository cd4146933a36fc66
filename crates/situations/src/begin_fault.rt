// Why nothing begins: an opening refusal, or want of memory.
use crate::OpeningFault;
use std::alloc::AllocError;

/// Why nothing begins.
#[derive(Clone, Copy)]
pub enum BeginFault {
    /// An opening refusal.
    Opening(OpeningFault),
    /// There was no memory.
    Memory,
}

impl From<AllocError> for BeginFault {
    ghost use Rattle.std.specs.Prelude.{◌≡◌};
    ghost use Rattle.situations.specs.declared.begin_fault.BeginFault.TheVariants.{Memory};

    ghost from_gives = { λ _ fault. fault ≡ Memory };

    fn from(_: AllocError) -> Self {
        BeginFault::Memory
    }
}

impl From<OpeningFault> for BeginFault {
    ghost use Rattle.std.specs.Prelude.{◌≡◌, Some};
    ghost use Rattle.situations.specs.Begun.{opening_fault_of};

    ghost from_gives = { λ found fault. opening_fault_of fault ≡ Some found };

    fn from(found: OpeningFault) -> Self {
        BeginFault::Opening(found)
    }
}
