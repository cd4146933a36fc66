ghost use Rattle.std.specs.Prelude.{◌≡◌, ◌⊎◌, ◌+◌, ◌≤◌, ◌++◌, [], ◌∷◌, IsTrue, IsErrAnd, IfOk, vec_len};
ghost use Rattle.std.specs.IoError.{error_kind};
ghost use Rattle.cps_outside.specs.OpenerState.{OpenerState, IsAfterOpen, Opens, ReadsFront, system_files};
ghost use Rattle.cps_outside.specs.Real.{folder_state, folder_over};

use crate::{Folder, LoadFault, ReaderSource, read_pieces};
use std::alloc::Global;
use std::io::{ErrorKind, Read};
use std::rt::Files;
use std::{fs, io};

/// What opens files by their names.
///
/// Contracts see whether it tells the contents of its files, the content of each name, and the names asked for so far.
pub trait Opener {
    /// A file that is open.
    type File: Read + Drop;

    ghost state: { Self → OpenerState };

    /// The file of this name, to be read from its beginning. No opening changes a content.
    fn open(&mut self, name: &str) -> io::Result<Self::File>
        ensures after { IsAfterOpen (state self.old) (state self.new) }
        ensures asked { IsTrue (state self.old).tells →
            ((state self.new).asked ≡ (state self.old).asked ++ name.now ∷ [])
            ⊎ (IsErrAnd result (λ e. error_kind e ≡ ErrorKind.OutOfMemory)
            × ((state self.new).asked ≡ (state self.old).asked)) }
        ensures opened { IfOk result (λ file. Opens (state self.old) name.now
            (Self.File.remaining file)) };
}

/// Opens the files of the system, by their paths. No contract can say what a file holds, so it tells no contents.
#[derive(Drop)]
pub struct SystemFiles<'a, R> {
    rt: &'a R,
}

impl<'a, R> SystemFiles<'a, R> {
    /// The files that this runtime opens.
    pub fn new(rt: &'a R) -> SystemFiles<'a, R> {
        SystemFiles { rt }
    }
}

impl<'a, R: Files> Opener for SystemFiles<'a, R> {
    type File = R::File;

    ghost state = { λ _. system_files };

    fn open(&mut self, name: &str) -> io::Result<R::File> {
        fs::open(self.rt, name)
    }
}

/// Files that an opener opens. It tells what the opener tells, and is not sure.
#[derive(Drop)]
pub struct OpenedFiles<O> {
    alloc: Global,
    opener: O,
    faults: u64,
    taken: u64,
}

/// The files of the system.
pub type RealFolder<'a, R> = OpenedFiles<SystemFiles<'a, R>>;

impl<'a, R: Files + AllocGlobal> OpenedFiles<SystemFiles<'a, R>> {
    /// The files of the system that this runtime opens. No fault has come yet.
    pub fn new(rt: &'a R) -> RealFolder<'a, R>
        ensures { folder_state ⟦<SystemFiles<'a, R> as Opener>⟧.state result
            ≡ folder_over system_files 0 0 }
    {
        OpenedFiles::over(rt.alloc(), SystemFiles::new(rt))
    }
}

impl<O: Opener> OpenedFiles<O> {
    /// The files that this opener opens. No fault has come yet.
    pub fn over(alloc: Global, opener: O) -> OpenedFiles<O>
        ensures { folder_state O.state result ≡ folder_over (O.state opener) 0 0 }
    {
        OpenedFiles {
            alloc,
            opener,
            faults: 0,
            taken: 0,
        }
    }
}

// The first bytes of the file of this name, one more than `most` at most.
fn read_named<O: Opener>(
    alloc: Global,
    opener: &mut O,
    name: &str,
    most: usize,
) -> io::Result<Vec<u8>>
    ensures after { IsAfterOpen (O.state opener.old) (O.state opener.new) }
    ensures asked { IsTrue (O.state opener.old).tells →
        ((O.state opener.new).asked ≡ (O.state opener.old).asked ++ name.now ∷ [])
        ⊎ (IsErrAnd result (λ e. error_kind e ≡ ErrorKind.OutOfMemory)
        × ((O.state opener.new).asked ≡ (O.state opener.old).asked)) }
    ensures bounded { IfOk result (λ bytes. vec_len bytes ≤ most + 1) }
    ensures front { IfOk result (λ bytes. ReadsFront (O.state opener.old) name.now most
        bytes.items) }
{
    let mut source = ReaderSource::new(opener.open(name)?);
    read_pieces(alloc, &mut source, most)
}

impl<O: Opener> Folder for OpenedFiles<O> {
    ghost state = { folder_state O.state };

    fn load(&mut self, name: &str, most: usize) -> Result<Vec<u8>, LoadFault> {
        let faults_then = self.faults.saturating_add(1);
        let taken = self.taken;
        match read_named(self.alloc, &mut self.opener, name, most) {
            Ok(bytes) => {
                self.taken = taken.saturating_add(bytes.len() as u64);
                if bytes.len() > most {
                    return Err(LoadFault::TooLong);
                }
                Ok(bytes)
            }
            Err(e) if e.kind() == ErrorKind::OutOfMemory => Err(LoadFault::Memory),
            Err(_) => {
                self.faults = faults_then;
                Err(LoadFault::Failed)
            }
        }
    }
}
