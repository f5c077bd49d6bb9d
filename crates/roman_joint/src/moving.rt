//! Clears the lanes at which a service within the lanes serves an action.
ghost use Rattle.std.specs.Prelude.{◌≡◌, ℕ, ◌+◌, ◌<◌, ◌≤◌, length, slice_index};
ghost use Rattle.roman_joint.specs.Moves.{AreSmall, SuitsMoving, LosesMoving};

use crate::moves::Move;
use crate::words::each_moves_alive;
use roman_lanes::{Update, UpdateOf, load, update_each, without};
use std::simd::prelude::*;

/// An update of words: each word loses the lanes of `some` from which all moves lead to lanes of the
/// word of `alive` at its place.
#[derive(Clone, Copy)]
struct Moving<'a> {
    alive: &'a [u64],
    moves: &'a [Move],
    some: u64,
}

impl Update for Moving<'_> {
    ghost use Rattle.std.specs.Prelude.{slice_index};
    ghost use Rattle.roman_joint.specs.Moves.{SuitsMoving, LosesMoving};

    ghost suits = { λ update many. SuitsMoving update.alive.now update.moves.now many };

    ghost makes = { λ update i old new.
        LosesMoving update.some update.moves.now (slice_index update.alive.now i) old new };
}

impl<const N: usize> UpdateOf<N> for Moving<'_> {
    #[inline(always)]
    fn updated(&self, words: Simd<u64, N>, at: usize) -> Simd<u64, N>
        requires { (many : ℕ) × (at + N ≤ many) × SuitsMoving self.now.alive.now self.now.moves.now many }
        ensures long { length result ≡ N }
        ensures each { (i : ℕ) → i < N → LosesMoving self.now.some self.now.moves.now
            (slice_index self.now.alive.now (at + i)) (slice_index words.entry i) (slice_index result i) }
    {
        if words.reduce_or() == 0 {
            return words; // no lane is left to clear
        }
        let alive = load::<N>(self.alive, at);
        without(words, each_moves_alive(alive, self.moves, self.some))
    }
}

/// Clears, in each word of `left`, the lanes of `some` from which all moves lead to lanes of the word
/// of `alive` at its place.
pub(crate) fn clear_moving(left: &mut [u64], alive: &[u64], moves: &[Move], some: u64)
    requires alive { length left.old ≤ length alive.now }
    requires moves { AreSmall moves.now }
    ensures long { length left.new ≡ length left.old }
    ensures each { (i : ℕ) → i < length left.old → LosesMoving some moves.now (slice_index alive.now i)
        (slice_index left.old i) (slice_index left.new i) }
{
    update_each(&Moving { alive, moves, some }, left);
}
