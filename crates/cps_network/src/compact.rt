//! To keep some places of a list, in order and in place.

ghost use Rattle.std.specs.Prelude.{◌≡◌, ◌≤◌, Bool, true, ◌<◌, List, [], length, vec_capacity, vec_len, replicate, IsTrue, IfOk, IfSome};
ghost use Rattle.std.specs.Arc.{arc_value};
ghost use Rattle.std.specs.Fn.{FnReturnsAt};
ghost use Rattle.std.specs.List.{AllZip, swap};
ghost use Rattle.cps_nodes.specs.Windows.{IsWidth};
ghost use Rattle.cps_network.specs.Compacted.{kept_where, whole_or_left};

use cps_nodes::Window;
use std::alloc::{AllocError, Global};
use std::sync::Arc;

// Whether `accepts` holds of each label. It asks for all of them, since a loop that does not stop early costs less.
pub(crate) fn keeps_all<T: Drop, F: Fn(&T) -> bool>(labels: &Vec<T>, accepts: &F) -> bool
    requires callable { F.IsAlwaysCallable accepts.now }
    ensures { IsTrue result → AllZip (FnReturnsAt F.Fn accepts.now) labels.now.items
        (replicate (vec_len labels.now) true) }
{
    let mut all = true;
    for label in labels {
        all &= accepts(label);
    }
    all
}

// Keeps the windows and the labels at the places whose label `keep` accepts, in order.
pub(crate) fn compact_all<const W: usize, T: Drop, F: Fn(&T) -> bool>(
    windows: &mut Vec<Window<W>>,
    labels: &mut Vec<T>,
    keep: &F,
)
    requires width { IsWidth W }
    requires one_each { vec_len labels.old ≡ vec_len windows.old }
    requires callable { F.IsAlwaysCallable keep.now }
    ensures { (answers : List Bool) × AllZip (FnReturnsAt F.Fn keep.now) labels.old.items answers
        × (windows.new.items ≡ kept_where answers windows.old.items)
        × (labels.new.items ≡ kept_where answers labels.old.items) }
{
    let mut kept = 0;
    for i in 0..labels.len() {
        if !keep(&labels[i]) {
            continue;
        }
        labels.swap(kept, i);
        windows.swap(kept, i);
        kept += 1;
    }
    labels.truncate(kept);
    windows.truncate(kept);
}

// The windows of a list, in one that stages may share.
pub(crate) fn shared_copy<const W: usize>(
    windows: &Vec<Window<W>>,
) -> Result<Arc<Vec<Window<W>>, Global>, AllocError>
    ensures { IfOk result (λ list. (arc_value list).items ≡ windows.now.items) }
{
    let alloc = *windows.allocator();
    let mut copied = Vec::with_capacity(alloc, windows.len())?;
    copied.extend_from_slice(windows.as_slice())?;
    let list = Arc::new(alloc, copied)?;
    Ok(list)
}

// Copies the windows of a list, where there is one, into the room for them.
pub(crate) fn copy_into_room<const W: usize>(
    whole: Option<Arc<Vec<Window<W>>, Global>>,
    left: &mut Vec<Window<W>>,
)
    requires room { IfSome whole (λ list. (left.old.items ≡ [])
        × (length (arc_value list).items ≤ vec_capacity left.old)) }
    ensures { left.new.items
        ≡ whole_or_left whole.entry (λ list. (arc_value list).items) left.old.items }
{
    if let Some(list) = whole {
        // It is not refused, since there is room for all.
        let _copied = left.extend_from_slice(list.as_slice());
    }
}
