ghost use Rattle.std.specs.Prelude.{◌<◌, ◌^◌};

use cps_outside::Gate;
use label_workers::{PIECE, fill_lists, fill_long_lists, fill_numbers};
use std::alloc::{AllocError, Global};
use std::sync::atomic::{AtomicU64, Ordering};
use std::test::Fail;
use std::thread::Threads;

// Holds piece 0 until another has passed, for so many turns at most.
#[derive(Drop)]
struct Holding {
    other: u32,
    passed: AtomicU64,
    seen: AtomicU64,
}

const TURNS: u32 = 100_000_000;

impl Gate for Holding {
    fn pass(&self, piece: u32) {
        if piece == self.other {
            self.passed.store(1, Ordering::SeqCst);
        }
        if piece == 0 {
            for _ in 0..TURNS {
                if self.passed.load(Ordering::SeqCst) == 1 {
                    self.seen.store(1, Ordering::SeqCst);
                    return;
                }
            }
        }
    }
}

fn holds_piece_0_until(other: u32) -> Holding {
    Holding {
        other,
        passed: AtomicU64::new(0),
        seen: AtomicU64::new(0),
    }
}

// Counts the pieces.
#[derive(Drop)]
struct Counting {
    passes: AtomicU64,
}

impl Gate for Counting {
    fn pass(&self, _piece: u32) {
        self.passes.fetch_add(1, Ordering::SeqCst);
    }
}

fn counts_pieces() -> Counting {
    Counting {
        passes: AtomicU64::new(0),
    }
}

// Notes the pieces that have passed, each as a bit.
#[derive(Drop)]
struct Noting {
    noted: AtomicU64,
}

impl Noting {
    // Whether the piece of a number below 64 has passed.
    fn has_passed(&self, piece: usize) -> bool {
        self.noted.load(Ordering::SeqCst) >> (piece % 64) & 1 == 1
    }
}

impl Gate for Noting {
    fn pass(&self, piece: u32) {
        self.noted.fetch_or(1 << (piece % 64), Ordering::SeqCst);
    }
}

fn notes_pieces() -> Noting {
    Noting {
        noted: AtomicU64::new(0),
    }
}

// Whether each number is the last three digits of its place.
fn are_last_digits(column: &[u32]) -> bool {
    column
        .iter()
        .enumerate()
        .all(|(i, x)| *x == (i % 1000) as u32)
}

// Whether a column of so many numbers is filled.
fn is_filled<R: Threads + Sync, G: Gate + Sync>(
    rt: &R,
    alloc: Global,
    gate: &G,
    len: usize,
) -> Result<bool, AllocError>
    requires { len < 2 ^ 32 }
{
    let mut column = vec![in alloc; 7u32; len]?;
    fill_numbers(rt, column.as_mut_slice(), gate, &|i| (i % 1000) as u32);
    Ok(are_last_digits(&column))
}

// How many entries a column has, and the piece at which its second lane begins.
const HALVES: [(u16, u32); 4] = [(1025, 1), (2048, 1), (2049, 2), (5120, 3)];

#[test]
fn the_halves_of_a_column_run_beside_each_other(rt: HostRuntime) -> Result<(), Fail> {
    for (len, half) in HALVES {
        let gate = holds_piece_0_until(half);
        assert!(rt; is_filled(&rt, rt.alloc(), &gate, usize::from(len))?);
        assert_eq!(rt; gate.seen.load(Ordering::SeqCst), 1);
    }
    Ok(())
}

#[test]
fn each_piece_passes_the_gate_once_and_the_last_may_be_shorter(
    rt: HostRuntime,
) -> Result<(), Fail> {
    let gate = counts_pieces();
    assert!(rt; is_filled(&rt, rt.alloc(), &gate, 9 * PIECE + 6)?);
    assert_eq!(rt; gate.passes.load(Ordering::SeqCst), 10);
    assert!(rt; is_filled(&rt, rt.alloc(), &gate, 0)?);
    assert_eq!(rt; gate.passes.load(Ordering::SeqCst), 10);
    Ok(())
}

// Whether each entry of a column of so many tells that its piece had passed before the entry was made.
fn are_made_behind<R: Threads + Sync>(rt: &R, alloc: Global, len: usize) -> Result<bool, AllocError>
    requires { len < 2 ^ 32 }
{
    let gate = notes_pieces();
    let mut column = vec![in alloc; 7u32; len]?;
    fill_numbers(
        rt,
        column.as_mut_slice(),
        &gate,
        &|i| u32::from(gate.has_passed(i / PIECE)),
    );
    Ok(column.iter().all(|entry| *entry == 1))
}

#[test]
fn each_piece_of_a_column_passes_before_its_work(rt: HostRuntime) -> Result<(), Fail> {
    for len in [1, PIECE, PIECE + 1, 5 * PIECE + 6] {
        assert!(rt; are_made_behind(&rt, rt.alloc(), len)?, "{len}");
    }
    Ok(())
}

// Whether each of twenty items tells that it had passed before it was made, where a thread makes so many at least.
fn are_listed_behind<R: Threads + Sync>(
    rt: &R,
    alloc: Global,
    grain: usize,
) -> Result<bool, AllocError> {
    let gate = notes_pieces();
    let items = fill_long_lists(rt, alloc, 20, grain, &gate, &|i| Ok(gate.has_passed(i)))?;
    Ok(items.iter().all(|passed| *passed))
}

#[test]
fn each_item_of_a_list_passes_before_it_is_made(rt: HostRuntime) -> Result<(), Fail> {
    for grain in [1, 7, 20] {
        assert!(rt; are_listed_behind(&rt, rt.alloc(), grain)?, "{grain}");
    }
    Ok(())
}

// Whether the squares of eight items are made, a thread making so many at least.
fn are_squares<R: Threads + Sync>(
    rt: &R,
    alloc: Global,
    gate: &Counting,
    grain: usize,
) -> Result<bool, AllocError> {
    let squares = fill_long_lists(rt, alloc, 8, grain, gate, &|i| Ok((i % 8) * (i % 8)))?;
    Ok(squares.as_slice() == [0, 1, 4, 9, 16, 25, 36, 49].as_slice())
}

// Whether eight items are refused where one of them is.
fn are_refused<R: Threads + Sync>(rt: &R, alloc: Global, gate: &Counting, grain: usize) -> bool {
    let item = |i| if i == 5 { Err(AllocError) } else { Ok(i) };
    fill_long_lists(rt, alloc, 8, grain, gate, &item).is_err()
}

#[test]
fn each_item_is_a_piece(rt: HostRuntime) -> Result<(), Fail> {
    for grain in 1..10 {
        let gate = counts_pieces();
        assert!(rt; are_squares(&rt, rt.alloc(), &gate, grain)?);
        assert_eq!(rt; gate.passes.load(Ordering::SeqCst), 8);
        assert!(rt; are_refused(&rt, rt.alloc(), &gate, grain));
    }
    Ok(())
}

// Where a thread makes one item, one that is refused keeps no other back.
#[test]
fn each_item_passes_where_one_is_refused(rt: HostRuntime) -> Result<(), Fail> {
    let gate = counts_pieces();
    assert!(rt; are_refused(&rt, rt.alloc(), &gate, 1));
    assert_eq!(rt; gate.passes.load(Ordering::SeqCst), 8);
    Ok(())
}

#[test]
fn two_items_run_beside_each_other(rt: HostRuntime) -> Result<(), Fail> {
    let gate = holds_piece_0_until(1);
    let items = fill_lists(&rt, rt.alloc(), 2, &gate, &|i| Ok(i))?;
    assert_eq!(rt; gate.seen.load(Ordering::SeqCst), 1);
    assert_eq!(rt; items.as_slice(), [0, 1].as_slice());
    Ok(())
}
