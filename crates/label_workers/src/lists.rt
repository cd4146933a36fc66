ghost use Rattle.std.specs.Prelude.{◌≡◌, ℕ, ◌+◌, ◌-◌, ◌*◌, ◌^◌, ◌<◌, ◌≤◌, length, map, min, vec_len, IfOk, Ok, slice_index_or};
ghost use Rattle.std.specs.List.{flat_map};

use cps_outside::Gate;
use std::alloc::{AllocError, Global};
use std::thread;
use std::thread::Threads;

// The most lanes that make a list at once. A lane is what one thread runs: items one after another.
const LANES: usize = 8;

/// The answers of `f` for 0 to n - 1, each item a piece that may run beside others. Item i passes the gate as number i
/// first. `n` is at most 4,294,967,295, and `f` may be called on each number below it.
///
/// Each item is an Ok answer of `f` for its place. Where some item has none, or memory is refused, the answer is want of
/// memory, and the items made so far are given back.
pub fn fill_lists<
    R: Threads + Sync,
    T: Send + Drop,
    G: Gate + Sync,
    F: Fn(usize) -> Result<T, AllocError> + Sync,
>(rt: &R, alloc: Global, n: usize, gate: &G, f: &F) -> Result<Vec<T>, AllocError>
    requires few { n < 2 ^ 32 }
    requires callable { (i : ℕ) → i < n → F.pre f.now i }
    ensures len { IfOk result (λ items. vec_len items ≡ n) }
    ensures each { IfOk result (λ items. (i : ℕ) (d : T) → i < n → F.post f.now i
        (Ok (slice_index_or items.items i d))) }
{
    fill_long_lists(rt, alloc, n, 1, gate, f)
}

/// The same where an item may cost less than a thread. One call of a thread makes some items one after another: at least `grain`
/// of them, and all where there are no more, and an eighth of them where that is more. So `grain` items start no thread.
pub fn fill_long_lists<
    R: Threads + Sync,
    T: Send + Drop,
    G: Gate + Sync,
    F: Fn(usize) -> Result<T, AllocError> + Sync,
>(rt: &R, alloc: Global, n: usize, grain: usize, gate: &G, f: &F) -> Result<Vec<T>, AllocError>
    requires few { n < 2 ^ 32 }
    requires callable { (i : ℕ) → i < n → F.pre f.now i }
    ensures len { IfOk result (λ items. vec_len items ≡ n) }
    ensures each { IfOk result (λ items. (i : ℕ) (d : T) → i < n → F.post f.now i
        (Ok (slice_index_or items.items i d))) }
{
    let size = lane_of(n, grain);
    let lane = move |j: usize| -> Result<Vec<T>, AllocError>
        requires { (j * size < n) × (n < 2 ^ 32) × ((i : ℕ) → i < n → F.pre f.now i) }
        ensures { IfOk result (λ items. (length items.items ≡ min size (n - j * size))
            × ((k : ℕ) (d : T) → k < length items.items
            → F.post f.entry.now (j * size + k) (Ok (slice_index_or items.items k d)))) }
    {
        let from = j * size;
        lane_from(alloc, from, size.min(n - from), gate, f)
    };
    let answers = thread::map_indices(rt, alloc, lane_count(n, size), &lane)?;
    let lanes = all_of(alloc, answers)?;
    joined(alloc, n, lanes)
}

// How many items a lane has: at least a grain of them, and so many that at most LANES lanes make all.
fn lane_of(n: usize, grain: usize) -> usize
    ensures grain { grain ≤ result }
    ensures some { 0 < result }
{
    n.div_ceil(LANES).max(grain).max(1)
}

// How many lanes of this size there are.
fn lane_count(n: usize, size: usize) -> usize
    requires { 0 < size }
    ensures inside { (j : ℕ) → j < result → j * size < n }
    ensures whole { n ≤ result * size }
{
    n.div_ceil(size)
}

// So many items from one on, each behind the gate.
fn lane_from<T: Drop, G: Gate, F: Fn(usize) -> Result<T, AllocError>>(
    alloc: Global,
    from: usize,
    count: usize,
    gate: &G,
    f: &F,
) -> Result<Vec<T>, AllocError>
    requires few { from + count < 2 ^ 32 }
    requires callable { (k : ℕ) → k < count → F.pre f.now (from + k) }
    ensures len { IfOk result (λ items. length items.items ≡ count) }
    ensures each { IfOk result (λ items. (k : ℕ) (d : T) → k < count → F.post f.now (from + k)
        (Ok (slice_index_or items.items k d))) }
{
    let mut items = Vec::with_capacity(alloc, count)?;
    for k in 0..count {
        let i = from + k;
        gate.pass(i as u32);
        items.push(f(i)?)?;
    }
    Ok(items)
}

// The values, where each is there.
fn all_of<T: Drop>(alloc: Global, answers: Vec<Result<T, AllocError>>) -> Result<Vec<T>, AllocError>
    ensures { IfOk result (λ items. answers.items ≡ map Ok items.items) }
{
    let mut items = Vec::new(alloc);
    for answer in answers {
        items.push(answer?)?;
    }
    Ok(items)
}

// The items of all lists, in order.
fn joined<T: Drop>(alloc: Global, n: usize, lists: Vec<Vec<T>>) -> Result<Vec<T>, AllocError>
    ensures { IfOk result (λ items. items.items ≡ flat_map (λ list. list.items) lists.items) }
{
    let mut items = Vec::with_capacity(alloc, n)?;
    for mut list in lists {
        items.append(&mut list)?;
    }
    Ok(items)
}
