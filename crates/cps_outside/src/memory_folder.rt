ghost use Rattle.std.specs.Prelude.{◌≡◌, ◌⊎◌, ◌^◌, ◌<◌, ◌++◌, [], ◌∷◌, ◌==◌, ◌||◌, false, is_none, map, string_bytes, OnOk, OnErr, IsTrue, IsSome, IfOk, IfSome, IfNone, Some, None, IsErrOf};
ghost use Rattle.std.specs.List.{list_any};
ghost use Rattle.cps_outside.specs.Causes.{Rose};
ghost use Rattle.cps_outside.specs.FolderState.{IsAfterLoad, IsAbsent, Gives, Exceeds};
ghost use Rattle.cps_outside.specs.MemoryFolder.{content_in, folder_state, fresh_folder, failing_loads_of, number_of_load, loads_of, is_to_fail};

use crate::{Folder, LoadFault};
use std::alloc::{AllocError, Global};

/// Files in memory. It tells its contents, and fails at an absent name and at each load whose number, counted from 1,
/// is listed.
#[derive(Drop)]
pub struct MemoryFolder {
    alloc: Global,
    files: Vec<(String, Vec<u8>)>,
    failing: Vec<u32>,
    asked: Vec<String>,
    loads: u64,
    faults: u64,
    taken: u64,
}

impl MemoryFolder {
    /// A folder of these files, in which the first file of a name is the content of that name. The loads of the numbers
    /// in `failing`, counted from 1, fail.
    pub fn new(alloc: Global, files: Vec<(String, Vec<u8>)>, failing: Vec<u32>) -> MemoryFolder
        ensures state { folder_state result ≡ fresh_folder files.items failing.items }
        ensures failing { failing_loads_of result ≡ failing.items }
        ensures loads { loads_of result ≡ 0 }
    {
        MemoryFolder {
            alloc,
            files,
            failing,
            asked: Vec::new(alloc),
            loads: 0,
            faults: 0,
            taken: 0,
        }
    }
}

// The content of the first file of this name.
fn content_of<'a>(files: &'a [(String, Vec<u8>)], name: &str) -> Option<&'a [u8]>
    ensures found { IfSome result (λ bytes. content_in files.now name.now ≡ Some bytes.now) }
    ensures absent { IfNone result (content_in files.now name.now ≡ None) }
{
    let file = files.iter().find(|file| file.0.as_str() == name)?;
    Some(file.1.as_slice())
}

fn is_listed(failing: &[u32], load: u64) -> bool
    ensures { result ≡ list_any (λ number. number == load) failing.now }
{
    failing.iter().any(|number| u64::from(*number) == load)
}

// The content that a load of this number gives: none where the load is to fail, or no file has the name.
fn content_at<'a>(
    files: &'a [(String, Vec<u8>)],
    failing: &[u32],
    load: u64,
    name: &str,
) -> Option<&'a [u8]>
    ensures found { IfSome result (λ bytes. content_in files.now name.now ≡ Some bytes.now) }
    ensures fails { is_none result ≡ (list_any (λ number. number == load) failing.now
        || is_none (content_in files.now name.now)) }
{
    if is_listed(failing, load) {
        return None;
    }
    content_of(files, name)
}

// Keeps a name that was asked for.
fn keep(alloc: Global, asked: &mut Vec<String>, name: &str) -> Result<(), AllocError>
    ensures kept { OnOk result (map string_bytes asked.new.items
        ≡ map string_bytes asked.old.items ++ name.now ∷ []) }
    ensures same { OnErr result (asked.new.items ≡ asked.old.items) }
{
    asked.push(String::from_str(alloc, name)?)?;
    Ok(())
}

impl Folder for MemoryFolder {
    ghost state = { folder_state };

    fn load(&mut self, name: &str, most: usize) -> Result<Vec<u8>, LoadFault>
        ensures after { IsAfterLoad (folder_state self.old) (folder_state self.new) }
        ensures fits { ((folder_state self.new).faults < 2 ^ 64)
            × ((folder_state self.new).taken < 2 ^ 64) }
        ensures asked { IsTrue (folder_state self.old).tells →
            ((folder_state self.new).asked ≡ (folder_state self.old).asked ++ name.now ∷ [])
            ⊎ (IsErrOf result LoadFault.Memory
            × ((folder_state self.new).asked ≡ (folder_state self.old).asked)) }
        ensures ok { IfOk result (λ bytes. Gives (folder_state self.old) (folder_state self.new)
            name.now most bytes.items) }
        ensures failed { IsErrOf result LoadFault.Failed
            → Rose (folder_state self.old).faults (folder_state self.new).faults }
        ensures absent { IsErrOf result LoadFault.Failed
            → IsAbsent (folder_state self.old) name.now }
        ensures too_long { IsErrOf result LoadFault.TooLong
            → Exceeds (folder_state self.old) (folder_state self.new) name.now most }

        // But for want of memory, it fails exactly where its number is listed or the name is absent.
        ensures fails { IsTrue (is_to_fail self.old name.now) →
            IsErrOf result LoadFault.Failed ⊎ IsErrOf result LoadFault.Memory }
        ensures succeeds { is_to_fail self.old name.now ≡ false → IsErrOf result LoadFault.Failed
            → ⊥ }

        // With no load listed, a load of a name that is there doesn't fail.
        ensures present { failing_loads_of self.old ≡ []
            → IsSome ((folder_state self.old).content name.now) →
            IsErrOf result LoadFault.Failed → ⊥ }

        // No other answer than that it failed counts a fault.
        ensures faultless { (IsErrOf result LoadFault.Failed → ⊥) →
            (folder_state self.new).faults ≡ (folder_state self.old).faults }
        ensures failing { failing_loads_of self.new ≡ failing_loads_of self.old }
        ensures loads { loads_of self.new ≡ number_of_load self.old }
    {
        let faults_then = self.faults.saturating_add(1);
        let taken = self.taken;
        self.loads = self.loads.saturating_add(1);
        keep(self.alloc, &mut self.asked, name)?;
        let files = self.files.as_slice();
        let Some(content) = content_at(files, self.failing.as_slice(), self.loads, name) else {
            self.faults = faults_then;
            return Err(LoadFault::Failed);
        };
        let taken_then = taken.saturating_add(content.len() as u64);
        if content.len() > most {
            self.taken = taken_then;
            return Err(LoadFault::TooLong);
        }
        let bytes = content.to_vec(self.alloc)?;
        self.taken = taken_then;
        Ok(bytes)
    }
}
