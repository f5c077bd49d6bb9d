//! Stripes: the words of neighbouring rows, which are combined word by word.
ghost use Rattle.std.specs.Prelude.{◌≡◌, ◌≢◌, ℕ, ◌+◌, ◌-◌, ◌*◌, ◌/◌, ◌%◌, ◌<◌, ◌≤◌, not, ◌&&◌, false, length, slice_index, bit_and};
ghost use Rattle.roman_lanes.specs.Rows.{is_on};
ghost use Rattle.roman_joint.specs.Outcomes.{is_missing, is_missing_in, AreWithin, SuitsRows};
ghost use Rattle.roman_joint.specs.Bands.{SuitsStripe, LosesStripe, LosesAlive, CanGo};

use crate::outcomes::Outcomes;
use roman_lanes::{Taking, Update, UpdateOf, both, less, load, update_each, without};
use roman_rules::BAND;
use std::simd::prelude::*;

/// Sets all words to 0.
pub(crate) fn clear(words: &mut [u64])
    ensures long { length words.new ≡ length words.old }
    ensures off { (i : ℕ) → i < length words.old → slice_index words.new i ≡ 0 }
{
    words.fill(0);
}

/// Sets the first `many` words to `word`.
pub(crate) fn set_first(to: &mut [u64], many: usize, word: u64)
    requires { many ≤ length to.old }
    ensures long { length to.new ≡ length to.old }
    ensures each { (i : ℕ) → i < many → slice_index to.new i ≡ word }
{
    for i in 0..many {
        to[i] = word;
    }
}

/// Clears, in each word, the lanes that aren't set in the words of `with` from place `from` on.
fn and_from(to: &mut [u64], with: &[u64], from: usize)
    requires { from + length to.old ≤ length with.now }
    ensures long { length to.new ≡ length to.old }
    ensures each { (i : ℕ) → i < length to.old → slice_index to.new i
        ≡ bit_and (slice_index to.old i) (slice_index with.now (from + i)) }
{
    both(to, &with[from..]);
}

/// Clears, in each word, the lanes that aren't set in all rows of the word: the rows of
/// word i are `base + i + b * stride`, for each state b.
pub(crate) fn rows_alive_each(all: &mut [u64], words: &[u64], base: u32, states: &[u8], stride: u32)
    requires { AreWithin base stride (length all.old) (length words.now) states.now }
    ensures long { length all.new ≡ length all.old }
    ensures each { (i lane : ℕ) → i < length all.old → is_on (slice_index all.new i) lane
        ≡ (is_on (slice_index all.old i) lane && not (is_missing words.now (base + i) stride states.now lane)) }
{
    for state in states {
        let from = (base + u32::from(*state) * stride) as usize;
        and_from(all, words, from);
    }
}

/// Clears, in each word, the lanes that aren't set in all rows of the word: the rows of word i are
/// the numbers of `rows`, each plus i.
pub(crate) fn all_alive_each(all: &mut [u64], words: &[u64], rows: &Outcomes<'_>)
    requires { SuitsRows rows.now (length all.old) (length words.now) }
    ensures long { length all.new ≡ length all.old }
    ensures each { (i lane : ℕ) → i < length all.old → is_on (slice_index all.new i) lane
        ≡ (is_on (slice_index all.old i) lane && not (is_missing_in words.now rows.now i lane)) }
{
    for env in rows.envs {
        let from = rows.base + u32::from(*env) * rows.env_stride;
        rows_alive_each(all, words, from, rows.states, rows.stride);
    }
}

/// Clears, in each word of `left`, the lanes of `full` that are set in all rows of the word: the rows
/// of word i are the numbers of `rows`, each plus i. There are at most 64 words in `left`.
pub(crate) fn clear_alive(left: &mut [u64], words: &[u64], rows: &Outcomes<'_>, full: u64)
    requires few { length left.old ≤ 64 }
    requires rows { SuitsRows rows.now (length left.old) (length words.now) }
    ensures long { length left.new ≡ length left.old }
    ensures each { (i : ℕ) → i < length left.old → LosesAlive rows.now words.now full i (slice_index left.old i)
        (slice_index left.new i) }
{
    if rows.envs.len() != 1 || rows.states.len() != 1 {
        let mut room = [0; BAND];
        let many = left.len();
        let all = &mut room[..many];
        set_first(all, many, full);
        all_alive_each(all, words, rows);
        less(left, all);
        return;
    }
    let from = rows.number(rows.envs[0], rows.states[0]) as usize;
    less(left, &words[from..]);
}

/// An update of words: the word at place i loses the lanes that are set in all words
/// `from + i + b * stride` of `alive`, for each state b.
#[derive(Clone, Copy)]
pub(crate) struct Stripe<'a> {
    pub(crate) alive: &'a [u64],
    pub(crate) from: usize,
    pub(crate) states: &'a [u8],
    pub(crate) stride: usize,
}

impl Update for Stripe<'_> {
    ghost use Rattle.roman_joint.specs.Bands.{SuitsStripe, LosesStripe};

    ghost suits = { SuitsStripe };

    ghost makes = { LosesStripe };
}

impl<const N: usize> UpdateOf<N> for Stripe<'_> {
    #[inline(always)]
    fn updated(&self, words: Simd<u64, N>, at: usize) -> Simd<u64, N>
        requires { (many : ℕ) × (at + N ≤ many) × SuitsStripe self.now many }
        ensures long { length result ≡ N }
        ensures each { (i : ℕ) → i < N → LosesStripe self.now (at + i) (slice_index words.entry i)
            (slice_index result i) }
    {
        let mut good = Simd::<u64, N>::splat(u64::MAX);
        for b in self.states {
            good &= load::<N>(self.alive, self.from + at + usize::from(*b) * self.stride);
        }
        without(words, good)
    }
}

/// Makes the update of a stripe in all words.
#[inline(always)]
fn update_words(words: &mut [u64], stripe: &Stripe<'_>)
    requires { SuitsStripe stripe.now (length words.old) }
    ensures long { length words.new ≡ length words.old }
    ensures each { (i : ℕ) → i < length words.old → LosesStripe stripe.now i (slice_index words.old i)
        (slice_index words.new i) }
{
    if stripe.states.len() == 1 {
        let from = stripe.from + usize::from(stripe.states[0]) * stripe.stride;
        let other = &stripe.alive[from..];
        update_each(&Taking { other }, words);
    } else {
        update_each(stripe, words);
    }
}

/// Makes the update of a stripe in as many words of `left` as its stride, from place `to` on.
fn clear_stripe(left: &mut [u64], to: usize, stripe: &Stripe<'_>)
    requires to { to + stripe.now.stride ≤ length left.old }
    requires suits { SuitsStripe stripe.now stripe.now.stride }
    ensures long { length left.new ≡ length left.old }
    ensures each { (j : ℕ) → j < stripe.now.stride → LosesStripe stripe.now j (slice_index left.old (to + j))
        (slice_index left.new (to + j)) }
    ensures below { (i : ℕ) → i < to → slice_index left.new i ≡ slice_index left.old i }
    ensures above { (i : ℕ) → to + stripe.now.stride ≤ i → slice_index left.new i ≡ slice_index left.old i }
{
    update_words(&mut left[to..to + stripe.stride], stripe);
}

/// Makes the update of a stripe in the words of `left` in which a component is in state `b`, of `size`
/// states. The words are `blocks` blocks, each with the words of all states. `stripe` is the stripe of the
/// first block, and its states are those to which the component goes.
pub(crate) fn clear_state(left: &mut [u64], stripe: &Stripe<'_>, b: u8, size: u8, blocks: usize)
    requires blocks { length left.old ≡ blocks * (size * stripe.now.stride) }
    requires alive { stripe.now.from + length left.old ≤ length stripe.now.alive.now }
    requires component { CanGo size stripe.now.stride b stripe.now.states.now }
    ensures long { length left.new ≡ length left.old }
    ensures each { (i : ℕ) → i < length left.old → i / stripe.now.stride % size ≡ b →
        LosesStripe stripe.now (i - b * stripe.now.stride) (slice_index left.old i) (slice_index left.new i) }
    ensures others { (i : ℕ) → i / stripe.now.stride % size ≢ b → slice_index left.new i ≡ slice_index left.old i }
{
    let step = usize::from(size) * stripe.stride;
    let own = usize::from(b) * stripe.stride;
    for block in 0..blocks {
        let first = block * step;
        let moved = Stripe {
            from: stripe.from + first,
            ..*stripe
        };
        clear_stripe(left, first + own, &moved);
    }
}
