//! A window.

ghost use Rattle.std.specs.Prelude.{◌≡◌, ℕ, ℤ, pos, ◌+◌, ◌-◌, ◌*◌, ◌/◌, ◌%◌, ◌^◌, ◌<◌, ◌≤◌, ◌+ℤ◌, ◌-ℤ◌, ◌≤ℤ◌, List, [], ◌∷◌, ◌++◌, ◌↔◌, length, IsTrue, IfSome, SomeIff, replicate, drop};
ghost use Rattle.std.specs.Int.{bit_at};
ghost use Rattle.std.specs.Ordering.{int_eq};
ghost use Rattle.std.specs.Cmp.Lexicographic.{pointwise};
ghost use Rattle.cps_base.specs.Limits.{most_waiting};
ghost use Rattle.cps_nodes.specs.Digits.{digit_offset, number_of, offsets_of, order_key};
ghost use Rattle.cps_nodes.specs.Held.{AreHeld};
ghost use Rattle.cps_nodes.specs.Leads.{Extends, IsBelow, GoOnAlike, TailMeetsHead};
ghost use Rattle.cps_nodes.specs.Ranks.{RanksKeepShift, HasLanded, window_of};
ghost use Rattle.cps_nodes.specs.WindowOrder.{window_cmp};
ghost use Rattle.cps_nodes.specs.Windows.{IsWidth, IsWindow, HoldsRank, Accepts, offset_at, shifted, IsPlaced};

use std::cmp::Ordering;
use std::marker::Model;

/// The offsets, rank minus place, at the last W places of a stage, W = 2k + 1 being 1, 3, 5 or 7.
///
/// Places below 1 hold offset 0. The ranks at the places differ, and the rank k below the last place is among them.
#[derive(Clone, Copy)]
pub struct Window<const W: usize> {
    // One digit in base 16 for each place, 8 more than its offset, that of the first place the highest. So windows compare
    // as numbers do.
    digits: u32,
}

impl<const W: usize> Model for Window<W> {
    ghost use Rattle.std.specs.Prelude.{List, ℤ};
    ghost use Rattle.cps_nodes.specs.Digits.{offsets_of, number_of, IsPacked, number-IsPacked};

    ghost Value = { List ℤ };

    ghost view = { λ w. offsets_of W w.digits };

    ghost invariant = { λ w. IsPacked W w.digits };

    ghost inverse = { λ xs. record { digits = number_of xs } };

    ghost inverse_ok = { λ w h i. record { digits = number-IsPacked W w.digits h i } };
}

// What digit i of a number counts, the lowest digit being digit 0.
#[inline]
fn place_value(i: usize) -> u32
    requires { i < 8 }
    ensures { result ≡ 2 ^ (4 * i) }
{
    1 << (4 * i)
}

// The offset that digit i of a number stands for.
#[inline]
fn digit_offset(digits: u32, i: usize) -> i8
    requires { i < 8 }
    ensures { result ≡ digit_offset digits i }
{
    (digits / place_value(i) % 16) as i8 - 8
}

// The number of the digits of a window from the second place on.
#[inline]
fn tail_of<const W: usize>(digits: u32) -> u32
    requires { (0 < W) × (W < 8) }
    ensures { result ≡ digits % 2 ^ (4 * (W - 1)) }
{
    digits % place_value(W - 1)
}

// The number of the digits of a window with the first one moved to the end. Windows stand in the order of these numbers.
#[inline]
fn order_key<const W: usize>(digits: u32) -> u32
    requires width { (0 < W) × (W < 8) }
    requires few { digits < 2 ^ (4 * W) }
    ensures { result ≡ order_key W digits }
{
    tail_of::<W>(digits) * 16 + digits / place_value(W - 1)
}

// The number of the digits after one more landing, at this offset.
#[inline]
fn shift<const W: usize>(digits: u32, offset: i8) -> u32
    requires width { (0 < W) × (W < 8) }
    requires low { pos 0 ≤ℤ (offset +ℤ pos 8) }
    requires high { offset ≤ℤ pos 7 }
    ensures few { result < 2 ^ (4 * W) }
    ensures offsets { offsets_of W result ≡ shifted (offsets_of W digits) offset }
{
    tail_of::<W>(digits) * 16 + (offset + 8) as u32
}

// The rank that a place of a window of this width holds, counted from the place of the first offset.
#[inline]
fn rank_at(digits: u32, width: usize, i: usize) -> i8
    requires width { width < 8 }
    requires place { i < width }
    ensures rank { result ≡ pos i +ℤ digit_offset digits (width - 1 - i) }
{
    i as i8 + digit_offset(digits, width - 1 - i)
}

// Whether some place holds this rank. Ranks are counted from the place of the first offset.
fn holds_rank<const W: usize>(digits: u32, rank: i8) -> bool
    requires { W < 8 }
    ensures { IsTrue result ↔ HoldsRank (offsets_of W digits) rank }
{
    let width = W; // a closure that names W is not read by the checker
    (0..width).any(|i| rank_at(digits, width, i) == rank)
}

// The bit that stands for a rank in a set of the ranks that a window holds.
#[inline]
fn bit_of(rank: i8) -> u32
    requires low { pos 0 ≤ℤ (rank +ℤ pos 8) }
    requires high { rank ≤ℤ pos 23 }
    ensures few { result < 32 }
    ensures bit { pos result ≡ rank +ℤ pos 8 }
{
    (rank + 8) as u32
}

// The ranks that the places hold, as bits. Ranks are counted from the place of the first offset.
#[inline]
fn held_ranks<const W: usize>(digits: u32) -> u32
    requires { W < 8 }
    ensures { AreHeld (offsets_of W digits) result }
{
    let width = W; // a closure that names W is not read by the checker
    (0..width).fold(0, |held, i| held | 1 << bit_of(rank_at(digits, width, i)))
}

// Whether a set of the ranks that a window holds has a rank.
#[inline]
fn has_rank(held: u32, rank: i8) -> bool
    requires low { pos 0 ≤ℤ (rank +ℤ pos 8) }
    requires high { rank ≤ℤ pos 23 }
    ensures { (xs : List ℤ) → AreHeld xs held → (IsTrue result ↔ HoldsRank xs rank) }
{
    (held >> bit_of(rank)) & 1 == 1
}

// How many offsets from -k on are those of landings after which a window with these ranks holds the rank that is then due.
#[inline]
fn count_due<const W: usize>(held: u32) -> u32
    requires { IsWidth W }
    ensures most { result ≤ W }
    ensures due { (xs : List ℤ) → IsWindow W xs → AreHeld xs held → (j : ℕ) → j < W
        → (j < result) ↔ HoldsRank (shifted xs (pos j -ℤ pos (W / 2))) (pos (W / 2)) }
{
    let k = (W / 2) as i8;
    if has_rank(held, k + 1) { W as u32 } else { 1 }
}

// The bit that stands for an offset from -k to k in a set of offsets.
#[inline]
fn bit_of_offset<const W: usize>(offset: i8) -> u32
    requires width { W < 8 }
    requires low { pos 0 ≤ℤ (offset +ℤ pos (W / 2)) }
    requires high { offset ≤ℤ pos (W / 2) }
    ensures few { result < 8 }
    ensures bit { pos result ≡ offset +ℤ pos (W / 2) }
{
    (offset + (W / 2) as i8) as u32
}

// So many lowest bits.
#[inline]
fn lowest_bits(count: u32) -> u64
    requires { count < 8 }
    ensures { result ≡ 2 ^ count - 1 }
{
    (1 << count) - 1
}

impl<const W: usize> Window<W> {
    /// The window before the first landing: W zeros.
    pub fn source() -> Window<W>
        requires { IsWidth W }
        ensures zeros { result ≡ replicate W (pos 0) }
        ensures empty { result ≡ window_of W [] }
    {
        Window {
            digits: 0x8888_8888 % place_value(W),
        }
    }

    /// The offset at place i of the window, counted from 0.
    #[inline]
    pub fn offset(&self, i: usize) -> i8
        requires { i < W }
        ensures valid { IsWindow W self.now }
        ensures value { result ≡ offset_at self.now i }
    {
        digit_offset(self.digits, W - 1 - i)
    }

    /// The offset of the last landing.
    #[inline]
    pub fn last(&self) -> i8
        ensures valid { IsWindow W self.now }
        ensures value { result ≡ offset_at self.now (W - 1) }
    {
        digit_offset(self.digits, 0)
    }

    /// Whether a rank has landed by the stage of this window: it is at most stage - k, or in the window. Both numbers are
    /// -10 to 100.
    pub fn placed(&self, rank: i32, stage: i32) -> bool
        requires rank_low { pos 0 ≤ℤ (rank +ℤ pos 10) }
        requires rank_high { rank ≤ℤ pos 100 }
        requires stage_low { pos 0 ≤ℤ (stage +ℤ pos 10) }
        requires stage_high { stage ≤ℤ pos 100 }
        ensures valid { IsWindow W self.now }
        ensures offsets { IsTrue result ↔ IsPlaced self.now stage rank }

        // For every list of ranks with this window: exactly its ranks are placed, and those below 1.
        ensures ranks { (ranks : List ℕ) → RanksKeepShift (W / 2) ranks
            → self.now ≡ window_of W ranks → stage ≡ pos (length ranks)
            → (IsTrue result ↔ HasLanded ranks rank) }
    {
        let digits = self.digits;
        if rank + (W / 2) as i32 <= stage {
            return true;
        }
        holds_rank::<W>(digits, (rank - stage + (W - 1) as i32) as i8)
    }

    /// Whether some offset extends this window to `next`.
    #[inline]
    pub fn leads_to(&self, next: &Window<W>) -> bool
        ensures valid { IsWindow W self.now }
        ensures next_valid { IsWindow W next.now }
        ensures extends { IsTrue result ↔ Extends self.now next.now }
        ensures lists { IsTrue result ↔ TailMeetsHead self.now next.now }
    {
        tail_of::<W>(self.digits) == next.digits / 16
    }

    /// Whether this window stands, in the order, before those that lead to `next`.
    #[inline]
    pub fn is_below(&self, next: &Window<W>) -> bool
        ensures { IsTrue result ↔ IsBelow self.now next.now }
    {
        tail_of::<W>(self.digits) < next.digits / 16
    }

    /// Whether both windows have the same offsets from the second on. The same flights may then land next.
    #[inline]
    pub fn shares_tail(&self, other: &Window<W>) -> bool
        ensures valid { IsWindow W self.now }
        ensures other_valid { IsWindow W other.now }
        ensures same { IsTrue result ↔ (drop 1 self.now ≡ drop 1 other.now) }
        ensures alike { IsTrue result → GoOnAlike self.now other.now }
    {
        tail_of::<W>(self.digits) == tail_of::<W>(other.digits)
    }

    /// The window after one more landing, at an offset from -k to k that this window accepts.
    #[inline]
    pub fn after(&self, offset: i8) -> Window<W>
        requires low { pos 0 ≤ℤ (offset +ℤ pos (W / 2)) }
        requires high { offset ≤ℤ pos (W / 2) }
        requires accepted { Accepts self.now offset }
        ensures { result ≡ shifted self.now offset }
    {
        let digits = shift::<W>(self.digits, offset);
        Window { digits }
    }

    /// The number of the offsets from the third on. In the order of these numbers stand, but for their first offsets, the windows
    /// that come after by one and the same offset.
    #[inline]
    pub fn order_of_next(&self) -> u32
        ensures { result ≡ number_of (drop 2 self.now) }
    {
        self.digits % place_value(W.saturating_sub(2))
    }

    /// The ranks from 1 on that the window holds where it is one of a stage up to `MOST_WAITING`, as bits: bit r for rank r.
    #[inline]
    pub fn held_at(&self, stage: u8) -> u64
        requires { stage ≤ most_waiting }
        ensures valid { IsWindow W self.now }
        ensures held { (rank : ℕ) → 1 ≤ rank → (bit_at result rank ≡ 1)
            ↔ HoldsRank self.now (pos rank -ℤ pos stage +ℤ pos (W - 1)) }
    {
        let held = u64::from(held_ranks::<W>(self.digits));

        // The rank that is the stage's number has bit `start` in the set that is held, and bit `stage` in the answer.
        let start = W as u8 + 7;
        if stage < start {
            return held >> (start - stage);
        }
        held << (stage - start)
    }

    /// The offsets from -k to k that the window accepts, as bits: bit k + offset. It accepts the offset of a landing exactly
    /// where it does not hold the flight, and the flight that is then due, of the rank k below the new place, is in the window
    /// after it.
    #[inline]
    pub fn accepted(&self) -> u64
        ensures valid { IsWindow W self.now }
        ensures accepted { (j : ℕ) → (bit_at result j ≡ 1)
            ↔ ((j < W) × Accepts self.now (pos j -ℤ pos (W / 2))) }
    {
        let ranks = held_ranks::<W>(self.digits);
        let due = lowest_bits(count_due::<W>(ranks));
        let held = u64::from(ranks);
        (!held >> (W - W / 2 + 8)) & due
    }

    /// Whether the window accepts an offset from -k to k.
    #[inline]
    pub fn accepts(&self, offset: i8) -> bool
        requires low { pos 0 ≤ℤ (offset +ℤ pos (W / 2)) }
        requires high { offset ≤ℤ pos (W / 2) }
        ensures valid { IsWindow W self.now }
        ensures accepts { IsTrue result ↔ Accepts self.now offset }
    {
        (self.accepted() >> bit_of_offset::<W>(offset)) & 1 == 1
    }

    /// The window after one more landing, at this offset from -k to k. `None` exactly where the flight stands in this
    /// window already, or the flight that is due, of the rank k below the new place, is not in the new window.
    #[inline]
    pub fn extend(&self, offset: i8) -> Option<Window<W>>
        requires low { pos 0 ≤ℤ (offset +ℤ pos (W / 2)) }
        requires high { offset ≤ℤ pos (W / 2) }
        ensures valid { IsWindow W self.now }
        ensures next { SomeIff result (Accepts self.now offset) (shifted self.now offset) }
        ensures next_valid { IfSome result (λ next. IsWindow W next) }

        // For every list of ranks with this window: it goes on by a rank exactly where the rank's offset is accepted.
        ensures ranks { (ranks : List ℕ) → (rank : ℕ) → RanksKeepShift (W / 2) ranks
            → self.now ≡ window_of W ranks → offset ≡ pos rank -ℤ pos (length ranks + 1)
            → SomeIff result (RanksKeepShift (W / 2) (ranks ++ rank ∷ []))
            (window_of W (ranks ++ rank ∷ [])) }
    {
        if !self.accepts(offset) {
            return None;
        }
        Some(self.after(offset))
    }

    // Whether both windows have the same offsets.
    #[inline]
    pub(crate) fn has_same_offsets(&self, other: &Window<W>) -> bool
        ensures { result ≡ pointwise int_eq self.now other.now }
    {
        self.digits == other.digits
    }

    // The order of windows.
    #[inline]
    pub(crate) fn compare(&self, other: &Window<W>) -> Ordering
        ensures { result ≡ window_cmp self.now other.now }
    {
        order_key::<W>(self.digits).cmp(&order_key::<W>(other.digits))
    }
}
