ghost use Rattle.std.specs.Prelude.{◌≡◌, ◌⊎◌, ◌^◌, ◌<◌, ◌++◌, [], ◌∷◌, IsTrue, IfOk, IsErrOf};
ghost use Rattle.cps_outside.specs.Causes.{Rose};
ghost use Rattle.cps_outside.specs.FolderState.{FolderState, IsAfterLoad, IsAbsent, Gives, Exceeds};
ghost use Rattle.cps_outside.specs.declared.folders.LoadFault.TheVariants.{Memory};

use std::alloc::{AllocError, AllocFailed};

/// Why a file was not loaded.
#[derive(Clone, Copy, Debug, PartialEq, Eq)]
pub enum LoadFault {
    /// The file is absent or can't be read.
    Failed,
    /// The file has more bytes than were asked for.
    TooLong,
    /// Memory was refused.
    Memory,
}

impl From<AllocError> for LoadFault {
    ghost from_gives = { λ _ e. e ≡ Memory };

    fn from(_: AllocError) -> Self {
        LoadFault::Memory
    }
}

impl<T: Drop> From<AllocFailed<T>> for LoadFault {
    ghost from_gives = { λ _ e. e ≡ Memory };

    fn from(_: AllocFailed<T>) -> Self {
        LoadFault::Memory
    }
}

/// Files by their names.
///
/// Contracts see whether the folder tells its contents, the content of each name, whether it is sure (no load of a name
/// that is there fails), the names asked for so far, how often it failed, and how many bytes were taken from it. A count
/// that stands at its last value, 2^64 - 1, stays there.
pub trait Folder {
    ghost state: { Self → FolderState };

    /// The bytes of the file of this name, if they are at most `most`.
    ///
    /// `Failed` comes only with one more fault, and from a folder that tells its contents and is sure only for a name that
    /// is not there. `TooLong` comes only where more than `most` bytes were taken. No load changes a content.
    fn load(&mut self, name: &str, most: usize) -> Result<Vec<u8>, LoadFault>
        ensures after { IsAfterLoad (state self.old) (state self.new) }
        ensures fits { ((state self.new).faults < 2 ^ 64) × ((state self.new).taken < 2 ^ 64) }
        ensures asked { IsTrue (state self.old).tells →
            ((state self.new).asked ≡ (state self.old).asked ++ name.now ∷ [])
            ⊎ (IsErrOf result LoadFault.Memory
            × ((state self.new).asked ≡ (state self.old).asked)) }
        ensures ok { IfOk result (λ bytes. Gives (state self.old) (state self.new) name.now most
            bytes.items) }
        ensures failed { IsErrOf result LoadFault.Failed
            → Rose (state self.old).faults (state self.new).faults }
        ensures absent { IsErrOf result LoadFault.Failed → IsAbsent (state self.old) name.now }
        ensures too_long { IsErrOf result LoadFault.TooLong
            → Exceeds (state self.old) (state self.new) name.now most };
}
