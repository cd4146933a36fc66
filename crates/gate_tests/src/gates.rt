//! Gates for tests.

ghost use Rattle.std.specs.Prelude.{◌≡◌, ◌↔◌, IsTrue};

use cps_outside::Gate;
use std::sync::atomic::{AtomicU64, Ordering};

/// Counts the pieces that pass.
#[derive(Drop)]
pub struct CountingGate {
    passes: AtomicU64,
}

impl CountingGate {
    /// None has passed.
    pub fn new() -> CountingGate {
        CountingGate {
            passes: AtomicU64::new(0),
        }
    }

    /// How many have passed.
    pub fn passes(&self) -> u64 {
        self.passes.load(Ordering::SeqCst)
    }
}

impl Gate for CountingGate {
    fn pass(&self, _piece: u32) {
        self.passes.fetch_add(1, Ordering::SeqCst);
    }
}

// Whether a piece is the one to hold: piece 0, of the stage that so many come before.
fn is_held(piece: u32, stage: u64, earlier: u64) -> bool
    ensures { IsTrue result ↔ ((piece ≡ 0) × (stage ≡ earlier)) }
{
    piece == 0 && stage == earlier
}

// For how many turns of a loop a piece is held at most.
const TURNS: u32 = 100_000_000;

/// Holds piece 0 of one stage until piece 1 has passed. Each stage has one piece 0, which tells the stages apart.
#[derive(Drop)]
pub struct HoldingGate {
    // How many stages come before the one that is held.
    earlier: u64,
    stages: AtomicU64,
    passed: AtomicU64,
    seen: AtomicU64,
}

impl HoldingGate {
    /// The gate that holds the stage that so many come before.
    pub fn behind(earlier: u64) -> HoldingGate {
        HoldingGate {
            earlier,
            stages: AtomicU64::new(0),
            passed: AtomicU64::new(0),
            seen: AtomicU64::new(0),
        }
    }

    /// Whether piece 1 passed while piece 0 was held.
    pub fn has_seen(&self) -> bool {
        self.seen.load(Ordering::SeqCst) == 1
    }

    // Waits for piece 1.
    fn hold(&self) {
        for _ in 0..TURNS {
            if self.passed.load(Ordering::SeqCst) == 1 {
                self.seen.store(1, Ordering::SeqCst);
                return;
            }
        }
    }
}

impl Gate for HoldingGate {
    fn pass(&self, piece: u32) {
        let stage = if piece == 0 {
            self.stages.fetch_add(1, Ordering::SeqCst)
        } else {
            self.stages.load(Ordering::SeqCst)
        };
        if is_held(piece, stage, self.earlier) {
            self.hold();
        }
        if piece == 1 && self.stages.load(Ordering::SeqCst) >= self.earlier {
            self.passed.store(1, Ordering::SeqCst);
        }
    }
}
