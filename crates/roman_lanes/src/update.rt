//! Updates of each word of a slice on its own, several neighbouring words at a time.
//!
//! Each update is a type. `Update` relates a word to its new value, and `UpdateOf` computes N new
//! words at once. `update_each` applies an update to a slice.
ghost use Rattle.std.specs.Prelude.{◌≡◌, ℕ, ◌+◌, ◌<◌, ◌≤◌, length, slice_index};
ghost use Rattle.roman_lanes.specs.Words.{UpdatesBetween, UpdatesEach};

use std::simd::prelude::*;

/// An update of each word of a slice on its own.
pub trait Update {
    /// The update can be made to slices of this length.
    ghost suits: { Self → ℕ → Type 0 };

    /// Relates a place, the word at this place before the update, and the word after it.
    ghost makes: { Self → ℕ → ℕ → ℕ → Type 0 };
}

/// An update that can be made to N neighbouring words at once.
pub trait UpdateOf<const N: usize>: Update {
    /// Returns the new values of `words`, which are the N words of a slice from `at` on.
    fn updated(&self, words: Simd<u64, N>, at: usize) -> Simd<u64, N>
        requires { (many : ℕ) × (at + N ≤ many) × Self.suits self.now many }
        ensures long { length result ≡ N }
        ensures each { (k : ℕ) → k < N → Self.makes self.now (at + k) (slice_index words.entry k)
            (slice_index result k) };
}

/// Makes the update to the N words from `at` on.
#[inline(always)]
#[tactic(auto, using(crate::proofs::Blocks::updates_block))]
fn update_block<const N: usize, C: UpdateOf<N>>(update: &C, words: &mut [u64], at: usize)
    requires words { at + N ≤ length words.old }
    requires suits { C.suits update.now (length words.old) }
    ensures { UpdatesBetween (C.makes update.now) at (at + N) words.old words.new }
{
    let updated = update.updated(Simd::<u64, N>::from_slice(&words[at..]), at);
    updated.copy_to_slice(&mut words[at..]);
}

/// Makes the update to the N words from `at` on, if there are that many. Returns the place after the
/// updated words.
#[inline(always)]
fn update_if_any<const N: usize, C: UpdateOf<N>>(update: &C, words: &mut [u64], at: usize) -> usize
    requires at { at ≤ length words.old }
    requires suits { C.suits update.now (length words.old) }
    ensures end { (at ≤ result) × (result ≤ length words.old) }
    ensures few { length words.old < at + N + N → length words.old < result + N }
    ensures updates { UpdatesBetween (C.makes update.now) at result words.old words.new }
{
    if words.len() - at >= N {
        update_block::<N, C>(update, words, at);
        at + N
    } else {
        at
    }
}

/// Makes the update to all words from `at` on. Requires fewer than eight of them.
#[inline(always)]
fn update_rest<C: UpdateOf<4> + UpdateOf<2> + UpdateOf<1>>(update: &C, words: &mut [u64], at: usize)
    requires at { at ≤ length words.old }
    requires few { length words.old < at + 8 }
    requires suits { C.suits update.now (length words.old) }
    ensures { UpdatesBetween (C.makes update.now) at (length words.old) words.old words.new }
{
    let two = update_if_any::<4, C>(update, words, at);
    let one = update_if_any::<2, C>(update, words, two);
    update_if_any::<1, C>(update, words, one);
}

/// Makes the update to each word of the slice: to eight words at a time, and then to four, two and
/// one of the rest. Updates a slice of a single word directly.
#[inline(always)]
pub fn update_each<C: UpdateOf<8> + UpdateOf<4> + UpdateOf<2> + UpdateOf<1>>(
    update: &C,
    words: &mut [u64],
)
    requires { C.suits update.now (length words.old) }
    ensures long { length words.new ≡ length words.old }
    ensures each { UpdatesEach (C.makes update.now) words.old words.new }
{
    if words.len() == 1 {
        update_block::<1, C>(update, words, 0);
        return;
    }
    let mut at = 0;
    while words.len() - at >= 8 {
        update_block::<8, C>(update, words, at);
        at += 8;
    }
    update_rest(update, words, at);
}
