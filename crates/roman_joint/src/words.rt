//! Combines the words of several rows.
ghost use Rattle.std.specs.Prelude.{◌≡◌, ℕ, ◌+◌, ◌-◌, ◌*◌, ◌<◌, ◌≤◌, not, ◌&&◌, ◌||◌, length, slice_index};
ghost use Rattle.std.specs.List.{list_any};
ghost use Rattle.roman_lanes.specs.Rows.{is_on};
ghost use Rattle.roman_joint.specs.Outcomes.{outcome_number, is_missing, AreWithin, SuitsRows};
ghost use Rattle.roman_joint.specs.Moves.{AreSmall, HasAliveMoves};

use crate::moves::Move;
use crate::outcomes::Outcomes;
use std::simd::prelude::*;

/// Returns the lanes of `good` that are set in all rows `base + b * stride`, for each state b.
pub(crate) fn rows_alive(words: &[u64], base: u32, states: &[u8], stride: u32, good: u64) -> u64
    requires { AreWithin base stride 1 (length words.now) states.now }
    ensures { (lane : ℕ) → is_on result lane
        ≡ (is_on good lane && not (is_missing words.now base stride states.now lane)) }
{
    let mut alive = good;
    for state in states {
        alive &= words[(base + u32::from(*state) * stride) as usize];
    }
    alive
}

/// Returns the lanes of `good` that are set in all rows whose numbers `rows` has.
#[inline(always)]
pub(crate) fn all_alive(words: &[u64], rows: &Outcomes<'_>, good: u64) -> u64
    requires { SuitsRows rows.now 1 (length words.now) }
    ensures { (lane : ℕ) → is_on result lane
        ≡ (is_on good lane
        && not (list_any (λ e. list_any (λ b. not (is_on (slice_index words.now
        (outcome_number rows.now e b)) lane)) rows.now.states.now) rows.now.envs.now)) }
{
    let mut alive = good;
    for env in rows.envs {
        let base = rows.base + u32::from(*env) * rows.env_stride;
        alive = rows_alive(words, base, rows.states, rows.stride, alive);
    }
    alive
}

/// Returns the words whose lane l is lane `l + to - from` of the given ones.
#[inline(always)]
fn shifted<const N: usize>(words: Simd<u64, N>, from: u32, to: u32) -> Simd<u64, N>
    requires from { from < 64 }
    requires to { to < 64 }
    ensures long { length result ≡ N }
    ensures each { (i lane : ℕ) → i < N → from ≤ lane → lane < 64 → lane + to - from < 64 →
        is_on (slice_index result i) lane ≡ is_on (slice_index words.entry i) (lane + to - from) }
{
    if to >= from {
        return words >> Simd::<u64, N>::splat(u64::from(to - from));
    }
    words << Simd::<u64, N>::splat(u64::from(from - to))
}

/// Returns, for each word, the lanes that don't move, or that move to a set lane. `lanes` are the lanes
/// that move, and `moved` has the lane to which each moves.
#[inline(always)]
fn unmoved<const N: usize>(lanes: u64, moved: Simd<u64, N>) -> Simd<u64, N>
    ensures long { length result ≡ N }
    ensures each { (i lane : ℕ) → i < N → lane < 64 → is_on (slice_index result i) lane
        ≡ not (is_on lanes lane && not (is_on (slice_index moved.entry i) lane)) }
{
    Simd::<u64, N>::splat(!lanes) | moved
}

/// Returns, for each word of `alive`, the lanes of `good` from which all moves lead to lanes of the
/// word.
#[inline(always)]
pub(crate) fn each_moves_alive<const N: usize>(
    alive: Simd<u64, N>,
    moves: &[Move],
    good: u64,
) -> Simd<u64, N>
    requires { AreSmall moves.now }
    ensures long { length result ≡ N }
    ensures each { (i : ℕ) → i < N → HasAliveMoves good moves.now (slice_index alive.entry i) (slice_index result i) }
{
    let mut left = Simd::<u64, N>::splat(good);
    for step in moves {
        left &= unmoved(step.lanes, shifted(alive, step.from, step.to));
    }
    left
}

/// Returns the lanes of `good` from which all moves lead to lanes of `alive`.
pub(crate) fn moves_alive(alive: u64, moves: &[Move], good: u64) -> u64
    requires { AreSmall moves.now }
    ensures { HasAliveMoves good moves.now alive result }
{
    let mut words = [0];
    each_moves_alive(Simd::<u64, 1>::splat(alive), moves, good).copy_to_slice(&mut words);
    words[0]
}

/// Returns the lanes of a word, with those of another added if `is_in` is true.
#[tactic(auto, using(roman_lanes::proofs::CallerLemmas::on_or))]
pub(crate) fn with_lanes(word: u64, lanes: u64, is_in: bool) -> u64
    ensures { (lane : ℕ) → is_on result lane ≡ (is_on word lane || (is_on lanes lane && is_in)) }
{
    if is_in { word | lanes } else { word }
}

/// Returns the lanes of a word that aren't lanes of another.
#[tactic(auto, using(roman_lanes::proofs::CallerLemmas::on_without))]
pub(crate) fn less(word: u64, other: u64) -> u64
    ensures { (lane : ℕ) → is_on result lane ≡ (is_on word lane && not (is_on other lane)) }
{
    word & !other
}
