//! A column filled entry by entry.

ghost use Rattle.std.specs.Prelude.{◌≡◌, ℕ, ◌+◌, ◌^◌, ◌<◌, ◌≤◌, length, slice_index};

use cps_outside::Gate;
use std::thread;
use std::thread::Threads;

/// How many entries a piece of a column has. The last piece may be shorter.
pub const PIECE: usize = 1024;

// At most so many lanes of a column run at once. A lane is what one thread fills: whole pieces, one after another. Two, since
// to start a thread takes longer than to fill some pieces, and far longer where several start and processors are busy.
const LANES: usize = 2;

/// Writes into each entry of the column an answer of `f` for its place, by pieces. The piece that begins at entry i passes the
/// gate as number i / PIECE, and then its entries are written. The column has at most 4,294,967,295 entries, and `f` may be
/// called on each of their places.
///
/// A column of more than one piece is filled by two lanes of whole pieces, which may run at once, the first no shorter: so
/// pieces 0 and 1 may run at once where the column has at most two.
pub fn fill_numbers<R: Threads + Sync, G: Gate + Sync, F: Fn(usize) -> u32 + Sync>(
    rt: &R,
    column: &mut [u32],
    gate: &G,
    f: &F,
)
    requires few { length column.old < 2 ^ 32 }
    requires callable { (i : ℕ) → i < length column.old → F.pre f.now i }
    ensures { (i : ℕ) → i < length column.old → F.post f.now i (slice_index column.new i) }
{
    let lane = move |start: usize, part: &mut [u32]|
        requires { (start + length part.now < 2 ^ 32)
            × ((k : ℕ) → k < length part.now → F.pre f.now (start + k)) }
        ensures { (k : ℕ) → k < length part.entry.now
            → F.post f.entry.now (start + k) (slice_index part.exit.now k) }
    { fill_lane(part, start, gate, f) };
    let size = lane_of(column.len());
    thread::for_each_chunk_mut(rt, column, size, &lane);
}

// How many entries a lane has: whole pieces, and so many that at most LANES lanes cover the column.
fn lane_of(len: usize) -> usize
    requires { len < 2 ^ 32 }
    ensures { 0 < result }
{
    len.div_ceil(PIECE * LANES).max(1) * PIECE
}

// The part of a column that begins at entry `start`, piece by piece, each behind the gate.
fn fill_lane<G: Gate, F: Fn(usize) -> u32>(part: &mut [u32], start: usize, gate: &G, f: &F)
    requires few { start + length part.old < 2 ^ 32 }
    requires callable { (k : ℕ) → k < length part.old → F.pre f.now (start + k) }
    ensures { (k : ℕ) → k < length part.old → F.post f.now (start + k) (slice_index part.new k) }
{
    let len = part.len();
    for piece in 0..len.div_ceil(PIECE) {
        let from = piece * PIECE;
        gate.pass(((start + from) / PIECE) as u32);
        fill_piece(part, start, from, len.min(from + PIECE), f);
    }
}

// Of such a part the entries from one place on and before another.
fn fill_piece<F: Fn(usize) -> u32>(part: &mut [u32], start: usize, from: usize, to: usize, f: &F)
    requires few { start + length part.old < 2 ^ 32 }
    requires range { to ≤ length part.old }
    requires callable { (k : ℕ) → k < length part.old → F.pre f.now (start + k) }
    ensures len { length part.new ≡ length part.old }
    ensures earlier { (k : ℕ) → k < from → slice_index part.new k ≡ slice_index part.old k }
    ensures filled { (k : ℕ) → from ≤ k → k < to
        → F.post f.now (start + k) (slice_index part.new k) }
{
    for k in from..to {
        part[k] = f(start + k);
    }
}
