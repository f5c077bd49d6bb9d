//! Reads the list by places.
ghost use Rattle.std.specs.Prelude.{◌≡◌, ℕ, ◌+◌, ◌-◌, ◌^◌, ◌<◌, ◌≤◌, true, false, ◌∷◌, length, take, drop, slice_get, slice_index_or, Some};
ghost use Rattle.std.specs.List.{AllByRecursion};
ghost use Rattle.roman_lanes.specs.Rows.{is_on};
ghost use Rattle.roman_model.specs.Lists.{IsIn};
ghost use Rattle.roman_order.specs.Board.{as_entry, set_lanes};
ghost use Rattle.roman_order.specs.Batches.{HasBatchAt, HasRowsBelow, IsApart, IsBatch, entries_of};
ghost use Rattle.roman_order.specs.Sound.{IsLastFrom, batch_start, places_of};
ghost use Rattle.roman_order.specs.ReadAhead.{AreUnkept, IsBatchOf};
ghost use Rattle.roman_order.specs.declared.batch.Batch.{Batch};

use super::Order;
use crate::ahead::Ahead;
use crate::batch::Batch;
use crate::flags::first_lane;
use roman_model::Reason;

impl Order {
    /// Returns the list as batches. The entries of the batches, in order, are those of the list.
    pub fn batches(&self) -> &[Batch]
        ensures list { entries_of self.now.lanes result.now ≡ self.now.list }
        ensures each { AllByRecursion (IsBatch self.now.lanes) result.now }
    {
        &self.batches
    }

    /// Returns the entries from place `i` of the list on, up to the end of their batch: the whole
    /// batch, or its last entries. `near` is a guess of the batch's place among all batches, and can
    /// be any number. A wrong guess costs a search.
    #[tactic(auto, using(crate::proofs::Reading::batch_rules))]
    pub fn batch_at(&self, i: u32, near: usize) -> Batch
        requires { i < length self.now.list }
        ensures entries { HasBatchAt self.now.lanes self.now.list i result }
        ensures batch { IsBatch self.now.lanes result }
        ensures within { i + length (set_lanes result.lanes) ≤ length self.now.list }
        ensures row { result.row < self.now.rows }
    {
        let (batch, first) = self.batch_of(i, near);
        let lanes = without_lowest(batch.lanes, i - first);
        Batch { lanes, ..batch }
    }

    /// Returns the batch with the entry at place `i` of the list, and the place of its first entry.
    #[inline(always)]
    #[tactic(auto, using(crate::proofs::Reading::batch_rules))]
    fn batch_of(&self, i: u32, near: usize) -> (Batch, u32)
        requires { i < length self.now.list }
        ensures { IsBatchOf self.now.rows self.now.lanes self.now.list i result.1 result.0 }
    {
        let (place, first) = place_of(&self.firsts, self.batches.len(), i, near);
        (batch_in(&self.batches, place), first)
    }

    /// Passes over the entries from place `i` of the list on whose pairs have no bit in the kept
    /// words, batch by batch. Returns the place after them, at most the length of the list, and a
    /// guess of its batch. `near` is a guess of the batch of place `i`. If it is wrong, no entry is
    /// passed over.
    #[tactic(auto, using(crate::proofs::Tables::few))]
    pub fn past_unkept(&self, i: u32, near: usize) -> (u32, usize)
        requires { i ≤ length self.now.list }
        ensures { AreUnkept self.now i result.0 }
    {
        let many = self.batches.len();
        if near >= many || first_in(&self.firsts, many, near) != i {
            return (i, near);
        }
        let next = next_kept(&self.batches, &self.before, near);
        (first_of(&self.firsts, many, next, self.count), next)
    }

    /// Returns the entry at place `i` of the list, from 0: the pair and the reason. Finds its batch by
    /// a binary search.
    pub fn entry(&self, i: u32) -> (u32, Reason)
        requires { i < length self.now.list }
        ensures { slice_get self.now.list i ≡ Some (as_entry result) }
    {
        let batch = self.batch_at(i, usize::MAX);
        self.take_ahead(i, &mut Ahead { batch, next: 0 })
    }
}

/// Returns the number of the last of `many` batches that begins at place `i` of the list or before, and
/// the place where it begins. `near` is a guess of a batch that begins at place `i`.
fn place_of(firsts: &[u32], many: usize, i: u32, near: usize) -> (usize, u32)
    requires some { 0 < many }
    requires few { (length firsts.now ≤ many) × (many < 2 ^ 32) }
    requires start { batch_start many firsts.now 0 ≤ i }
    requires rising { (j : ℕ) → j + 1 < many → batch_start many firsts.now j < batch_start many firsts.now (j + 1) }
    ensures { IsLastFrom many firsts.now i result.0 result.1 }
{
    if near < many && first_in(firsts, many, near) == i {
        return (near, i);
    }
    let mut low = 0;
    let mut high = many;
    'search: while low + 1 < high {
        let middle = low + (high - low) / 2;
        if first_in(firsts, many, middle) <= i {
            low = middle;
        } else {
            high = middle;
        }
    }
    (low, first_in(firsts, many, low))
}

/// Returns the place of the first entry of batch `j` of `many`. `firsts` leaves out the first places
/// that equal their numbers.
#[inline(always)]
#[tactic(auto, using(crate::proofs::Firsts::first_rules))]
fn first_in(firsts: &[u32], many: usize, j: usize) -> u32
    requires few { (length firsts.now ≤ many) × (many < 2 ^ 32) }
    requires within { j < many }
    ensures { result ≡ batch_start many firsts.now j }
{
    let alone = many - firsts.len();
    if j < alone {
        return j as u32;
    }
    firsts[j - alone]
}

/// Returns the batch at place `j` of a table.
#[tactic(auto, using(crate::proofs::Reading::one_batch))]
pub(super) fn batch_in(batches: &[Batch], j: usize) -> Batch
    requires { j < length batches.now }
    ensures { drop j batches.now ≡ result ∷ drop (j + 1) batches.now }
{
    batches[j]
}

/// Returns the place of the first entry of batch `j` of `many`. After the last batch it is `count`, the
/// length of the list.
#[tactic(auto, using(crate::proofs::Firsts::first_rules))]
fn first_of(firsts: &[u32], many: usize, j: usize, count: u32) -> u32
    requires few { (length firsts.now ≤ many) × (many < 2 ^ 32) }
    ensures { result ≡ slice_index_or (places_of many firsts.now) j count }
{
    if j < many {
        first_in(firsts, many, j)
    } else {
        count
    }
}

/// Returns the place of the first batch from place `from` on that has some lane of the word of its
/// row. Returns the number of batches if there is none.
fn next_kept(batches: &[Batch], words: &[u64], from: usize) -> usize
    requires from { from ≤ length batches.now }
    requires rows { HasRowsBelow (length words.now) batches.now }
    ensures within { (from ≤ result) × (result ≤ length batches.now) }
    ensures apart { (e : Batch) → IsIn e (take (result - from) (drop from batches.now)) → IsApart words.now e }
{
    for j in from..batches.len() {
        let batch = batches[j];
        if !is_apart(words[batch.row as usize], batch.lanes) {
            return j;
        }
    }
    batches.len()
}

// Returns whether two words have no lane in common.
#[tactic(auto, using(crate::proofs::Kept::apart_words))]
fn is_apart(word: u64, other: u64) -> bool
    ensures { result ≡ true → (lane : ℕ) → is_on other lane ≡ true → is_on word lane ≡ false }
{
    word & other == 0
}

/// Returns the word without its `n` lowest lanes.
fn without_lowest(word: u64, n: u32) -> u64
    requires { n ≤ length (set_lanes word) }
    ensures rest { set_lanes result ≡ drop n (set_lanes word) }
    ensures fewer { (lane : ℕ) → is_on result lane ≡ true → is_on word lane ≡ true }
{
    let mut rest = word;
    for _taken in 0..n {
        (_, rest) = first_lane(rest);
    }
    rest
}
