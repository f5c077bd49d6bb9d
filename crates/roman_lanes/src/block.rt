//! Tests on blocks of neighbouring words or numbers, which are loaded as vectors.
ghost use Rattle.std.specs.Prelude.{◌≡◌, ℕ, ◌+◌, ◌<◌, ◌≤◌, length, slice_index, count_by, ◌==◌, IsTrue};
ghost use Rattle.std.specs.Simd.Lanes.{chunk};
ghost use Rattle.roman_lanes.specs.Words.{AreClear, AreClearFrom};

use std::simd::prelude::*;

/// The length of a block of numbers.
pub(crate) const LANES: usize = 16;

/// The length of a block of words.
pub(crate) const WORDS: usize = 32;

/// Counts the elements equal to `value` in the block that begins at `at`.
pub(crate) fn equal_in(values: &[u32], at: usize, value: u32) -> u32
    requires { at + 16 ≤ length values.now }
    ensures counted { result ≡ count_by (λ x. x == value) (chunk at 16 values.now) }
    ensures bound { result ≤ 16 }
{
    u32x16::from_slice(&values[at..])
        .simd_eq(u32x16::splat(value))
        .to_bitmask()
        .count_ones()
}

/// Returns whether all words of the block that begins at `at` are 0.
pub(crate) fn is_clear(words: &[u64], at: usize) -> bool
    requires { at + 32 ≤ length words.now }
    ensures { IsTrue result → AreClearFrom words.now at (at + 32) }
{
    let front = either(load(words, at), load(words, at + 8));
    let back = either(load(words, at + 16), load(words, at + 24));
    are_clear(either(front, back))
}

/// Returns the N words from `at` on. Requires that there are that many.
#[inline(always)]
#[tactic(auto, using(crate::proofs::Blocks::chunks))]
pub fn load<const N: usize>(words: &[u64], at: usize) -> Simd<u64, N>
    requires { at + N ≤ length words.now }
    ensures long { length result ≡ N }
    ensures each { (k : ℕ) → k < N → slice_index result k ≡ slice_index words.now (at + k) }
{
    Simd::<u64, N>::from_slice(&words[at..])
}

/// Returns the bitwise or of the two vectors.
#[inline(always)]
#[tactic(auto, using(crate::proofs::Blocks::either_clear))]
fn either(a: u64x8, b: u64x8) -> u64x8
    ensures { AreClear result → AreClear a × AreClear b }
{
    a | b
}

/// Returns whether all lanes are 0.
#[inline(always)]
fn are_clear(lanes: u64x8) -> bool
    ensures { IsTrue result → AreClear lanes }
{
    lanes.simd_ne(u64x8::splat(0)).to_bitmask() == 0
}
