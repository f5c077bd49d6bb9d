//! Combining the words of two slices, place by place.
ghost use Rattle.std.specs.Prelude.{◌≡◌, ℕ, ◌+◌, ◌<◌, ◌≤◌, not, ◌&&◌, length, slice_index, bit_and};
ghost use Rattle.roman_lanes.specs.Rows.{is_on, LosesLanes};

use crate::block::load;
use crate::update::{Update, UpdateOf, update_each};
use std::simd::prelude::*;

/// Clears the bits that aren't set in the words of `with`.
#[derive(Clone, Copy)]
struct Meeting<'a> {
    with: &'a [u64],
}

impl Update for Meeting<'_> {
    ghost use Rattle.std.specs.Prelude.{◌≡◌, ◌≤◌, length, slice_index, bit_and};

    ghost suits = { λ update many. many ≤ length update.with.now };

    ghost makes = { λ update i old new. new ≡ bit_and old (slice_index update.with.now i) };
}

impl<const N: usize> UpdateOf<N> for Meeting<'_> {
    #[inline(always)]
    #[tactic(auto, using(crate::proofs::Blocks::chunks))]
    fn updated(&self, words: Simd<u64, N>, at: usize) -> Simd<u64, N>
        requires { (many : ℕ) × (at + N ≤ many) × (many ≤ length self.now.with.now) }
        ensures long { length result ≡ N }
        ensures each { (k : ℕ) → k < N → slice_index result k ≡ bit_and (slice_index words.entry k)
            (slice_index self.now.with.now (at + k)) }
    {
        words & load::<N>(self.with, at)
    }
}

/// Returns each word of `words` without the lanes set in the word of `other` at the same place.
#[inline(always)]
pub fn without<const N: usize>(words: Simd<u64, N>, other: Simd<u64, N>) -> Simd<u64, N>
    ensures long { length result ≡ N }
    ensures each { (i lane : ℕ) → i < N → is_on (slice_index result i) lane ≡
        (is_on (slice_index words.entry i) lane && not (is_on (slice_index other.entry i) lane)) }
{
    words & !other
}

/// Clears the lanes that are set in the words of `other`.
#[derive(Clone, Copy)]
pub struct Taking<'a> {
    /// The words with the lanes to clear, at least one for each word of the slice.
    pub other: &'a [u64],
}

impl Update for Taking<'_> {
    ghost use Rattle.std.specs.Prelude.{◌≤◌, length, slice_index};
    ghost use Rattle.roman_lanes.specs.Rows.{LosesLanes};

    ghost suits = { λ update many. many ≤ length update.other.now };

    ghost makes = { λ update i old new. LosesLanes (slice_index update.other.now i) old new };
}

impl<const N: usize> UpdateOf<N> for Taking<'_> {
    #[inline(always)]
    fn updated(&self, words: Simd<u64, N>, at: usize) -> Simd<u64, N>
        requires { (many : ℕ) × (at + N ≤ many) × (many ≤ length self.now.other.now) }
        ensures long { length result ≡ N }
        ensures each { (k : ℕ) → k < N → LosesLanes (slice_index self.now.other.now (at + k))
            (slice_index words.entry k) (slice_index result k) }
    {
        without(words, load::<N>(self.other, at))
    }
}

/// Clears, in each word, the bits that aren't set in the word of `with` at the same place. `with` can
/// be the longer slice.
pub fn both(words: &mut [u64], with: &[u64])
    requires { length words.old ≤ length with.now }
    ensures long { length words.new ≡ length words.old }
    ensures each { (i : ℕ) → i < length words.old → slice_index words.new i ≡ bit_and (slice_index words.old i)
        (slice_index with.now i) }
{
    update_each(&Meeting { with }, words);
}

/// Clears, in each word, the lanes that are set in the word of `other` at the same place. `other` can
/// be the longer slice.
pub fn less(words: &mut [u64], other: &[u64])
    requires { length words.old ≤ length other.now }
    ensures long { length words.new ≡ length words.old }
    ensures each { (i lane : ℕ) → i < length words.old → is_on (slice_index words.new i) lane ≡
        (is_on (slice_index words.old i) lane && not (is_on (slice_index other.now i) lane)) }
{
    update_each(&Taking { other }, words);
}
