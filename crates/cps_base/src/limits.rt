//! How many of each thing there may be at most, and the greatest numbers. This project's own.

/// How many bytes a file may have.
pub const MOST_BYTES: usize = 16_777_216;

/// How many flights may wait.
pub const MOST_WAITING: u8 = 60;

/// How many flights there may be, waiting or frozen.
pub const MOST_FLIGHTS: usize = 500;

/// How many closures may stand.
pub const MOST_CLOSURES: usize = 32;

/// How many events a log may have.
pub const MOST_EVENTS: usize = 2_000;

/// How many seconds the windows of a flight may hold together.
pub const MOST_OPEN_SECONDS: u64 = 7_200;

/// The longest freeze, in seconds.
pub const LONGEST_FREEZE: u32 = 7_200;

/// The greatest weight of a flight.
pub const GREATEST_WEIGHT: u32 = 100;

/// The greatest value of a plan: 500 flights of weight 100, each 172,799 seconds late.
pub const GREATEST_VALUE: u64 = 8_639_950_000;

/// The most places that a flight may be shifted by.
pub const GREATEST_K: u8 = 3;

/// The most places that a flight may be shifted by where delay is least.
pub const GREATEST_DELAY_K: u8 = 2;

/// How many windows a flight may have.
pub const MOST_WINDOWS: usize = 4;

/// How many flights a flight may list as its predecessors.
pub const MOST_PREDECESSORS: usize = 4;

/// The greatest number that 32 bits hold.
pub const GREATEST_WORD: u64 = 4_294_967_295;
