use crate::key_text::KeyText;
use landing_windows::ClosureFault;
use thiserror::Error;
use wake_table::{Category, TableFault};

/// A key of the file. Closures, frozen landings and entries of `passed` are numbered from 1.
#[derive(Clone, Copy, Debug, PartialEq, Eq)]
pub enum Key {
    /// `version`.
    Version,
    /// `k`.
    K,
    /// `freeze`.
    Freeze,
    /// `objective`.
    Objective,
    /// `table`.
    Table,
    /// The row of this leader in the table.
    Row(Category),
    /// `closures`.
    Closures,
    /// `from` of this closure.
    From(u8),
    /// `to` of this closure.
    To(u8),
    /// `clock`.
    Clock,
    /// `frozen`.
    Frozen,
    /// `callsign` of this frozen landing.
    FrozenCallsign(u16),
    /// `second` of this frozen landing.
    FrozenSecond(u16),
    /// `passed`.
    Passed,
    /// `callsign` of this entry of `passed`.
    PassedCallsign(u8),
    /// `count` of this entry of `passed`.
    PassedCount(u8),
}

/// A part of the file that has keys.
#[derive(Clone, Copy, Debug, PartialEq, Eq)]
pub enum Part {
    /// The document itself.
    Top,
    /// The table of separations.
    Table,
    /// This closure.
    Closure(u8),
    /// This frozen landing.
    Frozen(u16),
    /// This entry of `passed`.
    Passed(u8),
}

/// Why a text is not an aerodrome file: its first fault.
#[derive(Clone, Copy, Debug, PartialEq, Eq, Error)]
pub enum AeroFault {
    /// It is no TOML document.
    #[error("not TOML")]
    NotToml,
    /// A key that is needed is absent.
    #[error("a key is missing")]
    MissingKey(Key),
    /// The first key of a part, in byte order, that the part does not have.
    #[error("an unknown key")]
    UnknownKey(Part, KeyText),
    /// The value at a key is of another kind.
    #[error("a value of another kind")]
    WrongKind(Key),
    /// The value at a key is outside its range.
    #[error("a value out of its range")]
    OutOfRange(Key),
    /// The rows are no table of separations.
    #[error("not a table of separations")]
    Table(TableFault),
    /// A closure is empty, or there are more than 32, which is told of number 33.
    #[error("not a closure")]
    Closure(u8, ClosureFault),
    /// There are more than 500 frozen landings.
    #[error("too many frozen landings")]
    FrozenTooMany,
    /// There is a frozen landing, and no clock second.
    #[error("a frozen landing without a clock")]
    FrozenNoClock,
    /// An earlier frozen landing has the callsign of this one.
    #[error("a flight that is frozen twice")]
    FrozenRepeat(u16),
    /// The second of this frozen landing is not before the clock second plus `freeze`.
    #[error("a frozen landing after the horizon")]
    FrozenLate(u16),
    /// There are more than `MOST_WAITING` entries of `passed`.
    #[error("too many counts")]
    PassedTooMany,
    /// An earlier entry of `passed` has the callsign of this one.
    #[error("a flight with two counts")]
    PassedRepeat(u8),
    /// The objective is delay, and `k` is above 1 in version 1, or above 2 in a later one.
    #[error("more shifts than delay takes")]
    DelayShift(u8),
    /// Memory ran out.
    #[error("out of memory")]
    Memory,
}
