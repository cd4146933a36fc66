ghost use Rattle.std.specs.Prelude.{◌<◌, ◌^◌, length, map, string_bytes, vec_items, MatchResult};
ghost use Rattle.endings.specs.Loads.{Loads, LoadsEnd};

use crate::Ending;
use cps_base::MOST_BYTES;
use cps_outside::{Folder, LoadFault};
use std::alloc::Global;

/// The contents of the files of these names, loaded in their order, or how the loads ended early.
///
/// They end at the first file whose load fails, that is longer than [`MOST_BYTES`], or for which there is no memory;
/// no later file is asked for.
pub fn load_all<F: Folder>(
    alloc: Global,
    folder: &mut F,
    names: &[String],
) -> Result<Vec<Vec<u8>>, Ending>
    requires { length names.now < 2 ^ 32 }
    ensures { MatchResult result
        (λ contents. Loads (F.state folder.old) (F.state folder.new)
        (map string_bytes names.now) (map vec_items contents.items))
        (λ ending. LoadsEnd (F.state folder.old) (F.state folder.new)
        (map string_bytes names.now) ending) }
{
    let mut contents = Vec::new(alloc);
    for (index, name) in names.iter().enumerate() {
        let place = index as u32 + 1;
        match folder.load(name.as_str(), MOST_BYTES) {
            Ok(bytes) => {
                if contents.push(bytes).is_err() {
                    return Err(Ending::NoMemory);
                }
            }
            Err(LoadFault::Failed) => return Err(Ending::NotLoaded(place)),
            Err(LoadFault::TooLong) => return Err(Ending::TooLong(place)),
            Err(LoadFault::Memory) => return Err(Ending::NoMemory),
        }
    }
    Ok(contents)
}
