ghost use Rattle.std.specs.Prelude.{◌≡◌, ◌≤◌, ◌-◌, ◌%◌, ◌==◌, Some, length, refl, true, slice_get};
ghost use Rattle.std.specs.Ordering.{bool_cmp};
ghost use Rattle.std.specs.Cmp.{partial_equiv_from_equiv};
ghost use Rattle.std.specs.Cmp.Lexicographic.{pointwise, slice_cmp};
ghost use Rattle.std.proofs.Math.Bool.{beq};
ghost use Rattle.certificate.specs.Patterns.{is_pattern_length, bits};
ghost use Rattle.certificate.specs.PatternOrder.{patterns_equiv, patterns_total, patterns_po, patterns_ties};

use std::cmp::Ordering;
use std::marker::Model;

/// Which ranks round a stage are placed: 0, 2, 4 or 6 digits, each 0 or 1. Contracts see the list of the digits, a
/// digit 1 as `true`; patterns compare as these lists do, and so as their texts.
#[derive(Clone, Copy)]
pub struct Pattern {
    digits: [bool; 6],
    len: usize,
}

impl Model for Pattern {
    ghost use Rattle.std.specs.Prelude.{◌≡◌, List, Bool, true, false, take, length};
    ghost use Rattle.std.proofs.Common.{sym};
    ghost use Rattle.cps_base.specs.Padded.{padded};
    ghost use Rattle.certificate.specs.Patterns.{is_pattern_length};

    ghost Value = { List Bool };

    ghost view = { λ p. take p.len p.digits };

    ghost invariant = { λ p. (p.digits ≡ padded false 6 (take p.len p.digits))
        × (length (take p.len p.digits) ≡ p.len)
        × (is_pattern_length (length (take p.len p.digits)) ≡ true) };

    ghost inverse = { λ digits. record { digits = padded false 6 digits; len = length digits } };

    ghost inverse_ok = { λ p h i. record { digits = sym h.0 i; len = h.1 i } };
}

impl Pattern {
    /// The pattern of `length` digits, 0, 2, 4 or 6 of them. Digit j, from 1, is 1 exactly where bit j - 1 of `ones`
    /// is set.
    pub fn new(length: u8, ones: u8) -> Pattern
        requires { is_pattern_length length ≡ true }
        ensures { result ≡ bits length ones }
    {
        let digits = lowest_bits(ones);
        Pattern::of(&digits[..length as usize])
    }

    // The pattern of these digits.
    pub(crate) fn of(digits: &[bool]) -> Pattern
        requires { is_pattern_length (length digits.now) ≡ true }
        ensures { result ≡ digits.now }
    {
        let len = digits.len();
        let mut kept = [false; 6];
        kept[..len].copy_from_slice(digits);
        Pattern { digits: kept, len }
    }

    /// The digits, the first of them digit 1.
    pub fn digits(&self) -> &[bool]
        ensures value { result.now ≡ self.now }
        ensures size { is_pattern_length (length self.now) ≡ true }
    {
        &self.digits[..self.len]
    }

    /// The number of digits: 0, 2, 4 or 6.
    pub fn length(&self) -> u8
        ensures value { result ≡ length self.now }
        ensures size { is_pattern_length (length self.now) ≡ true }
    {
        self.len as u8
    }

    /// Whether digit j is 1, for j from 1 to the length.
    pub fn digit(&self, j: u8) -> bool
        requires { (1 ≤ j) × (j ≤ length self.now) }
        ensures { slice_get self.now (j - 1) ≡ Some result }
    {
        self.digits()[j as usize - 1]
    }
}

// Whether a number is odd.
fn is_odd(n: u8) -> bool
    ensures { result ≡ (n % 2 == 1) }
{
    n % 2 == 1
}

// The six lowest bits of a number, the lowest first.
fn lowest_bits(ones: u8) -> [bool; 6]
    ensures { result ≡ bits 6 ones }
{
    let second = ones / 2;
    let third = second / 2;
    let fourth = third / 2;
    let fifth = fourth / 2;
    let sixth = fifth / 2;
    [
        is_odd(ones),
        is_odd(second),
        is_odd(third),
        is_odd(fourth),
        is_odd(fifth),
        is_odd(sixth),
    ]
}

impl PartialEq for Pattern {
    ghost eq = { pointwise beq };

    ghost laws = { partial_equiv_from_equiv patterns_equiv };

    fn eq(&self, other: &Pattern) -> bool {
        self.digits() == other.digits()
    }
}

impl Eq for Pattern {
    ghost laws = { patterns_equiv };
}

impl PartialOrd for Pattern {
    ghost partial_cmp = { λ x y. Some (slice_cmp bool_cmp x y) };

    ghost laws = { patterns_po };

    fn partial_cmp(&self, other: &Pattern) -> Option<Ordering> {
        Some(self.cmp(other))
    }
}

impl Ord for Pattern {
    ghost cmp = { slice_cmp bool_cmp };

    ghost total = { patterns_total };

    ghost matches_partial_cmp = { λ x y. refl };

    ghost matches_eq = { patterns_ties };

    fn cmp(&self, other: &Pattern) -> Ordering {
        self.digits().cmp(other.digits())
    }
}
