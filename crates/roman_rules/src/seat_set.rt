//! Sets of seats, and of other small numbers, in one word.
ghost use Rattle.std.specs.Prelude.{◌≡◌, ◌≢◌, ℕ, ◌<◌, ◌==◌, if◌then◌else◌};
ghost use Rattle.std.specs.Int.{bit_at};
ghost use Rattle.roman_rules.specs.Bits.{has_seat};

use std::marker::Model;

/// Returns the set `bits` of numbers below 32, with `k` added if `is_in` is true.
#[tactic(auto, using(crate::proofs::ProbeLemmas::added_same, crate::proofs::ProbeLemmas::added_other))]
pub fn with_bit(bits: u32, k: u8, is_in: bool) -> u32
    requires { k < 32 }
    ensures own { bit_at result k ≡ (if is_in then 1 else bit_at bits k) }
    ensures others { (j : ℕ) → j ≢ k → bit_at result j ≡ bit_at bits j }
{
    if is_in { bits | 1 << k } else { bits }
}

/// A set of seats, each below 32. It is `Copy`. Contracts see the word whose bit `k` is 1 exactly
/// when seat `k` is in the set.
#[derive(Clone, Copy, Debug, PartialEq, Eq)]
pub struct SeatSet {
    bits: u32,
}

impl Model for SeatSet {
    ghost use Rattle.std.specs.Prelude.{ℕ};

    ghost Value = { ℕ };

    ghost view = { λ s. s.bits };

    ghost inverse = { λ word. record { bits = word } };
}

impl SeatSet {
    /// The empty set.
    pub const EMPTY: SeatSet = SeatSet { bits: 0 };

    /// Returns the set, with seat `k` added if `is_in` is true. Requires `k` below 32.
    pub fn with(self, k: u8, is_in: bool) -> SeatSet
        requires { k < 32 }
        ensures own { bit_at result k ≡ (if is_in then 1 else bit_at self k) }
        ensures others { (j : ℕ) → j ≢ k → bit_at result j ≡ bit_at self j }
    {
        SeatSet {
            bits: with_bit(self.bits, k, is_in),
        }
    }

    /// Returns whether seat `k` is in the set. Requires `k` below 32.
    pub fn has(self, k: u8) -> bool
        requires { k < 32 }
        ensures { result ≡ has_seat self k }
    {
        (self.bits >> k) & 1 == 1
    }

    /// Returns whether the set is empty.
    pub fn is_empty(self) -> bool
        ensures { result ≡ (self == 0) }
    {
        self.bits == 0
    }
}
