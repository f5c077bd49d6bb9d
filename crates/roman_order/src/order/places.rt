//! The places of pairs in the list.
ghost use Rattle.std.specs.Prelude.{◌≡◌, ℕ, ◌+◌, ◌-◌, ◌*◌, ◌^◌, ◌<◌, ◌≤◌, ◌==◌, ◌&&◌, length, map, slice_index};
ghost use Rattle.std.specs.List.{AllByRecursion, IsDistinct, filter};
ghost use Rattle.roman_model.specs.Lists.{below};
ghost use Rattle.roman_lanes.specs.Rows.{is_on};
ghost use Rattle.roman_order.specs.Board.{pairs_of, set_lanes, nodes_of, place_in_list};
ghost use Rattle.roman_order.specs.Batches.{HasRowsBelow, IsBatch, entries_of};
ghost use Rattle.roman_order.specs.Sound.{AreStamps, CanWriteStamps, with_stamps};

use super::reading::batch_in;
use super::{Order, refill};
use crate::batch::Batch;
use crate::flags::{first_lane, is_set, lanes_in};

impl Order {
    /// Returns the place of the pair `p` in the list, from 0, or `None` if it isn't listed. Looks
    /// it up if [`stamp_all`](Order::stamp_all) was called since the list last changed, and
    /// otherwise searches for it batch by batch.
    #[tactic(auto, using(crate::proofs::Tables::stamp_rules))]
    pub fn stamp(&self, p: u32) -> Option<u32>
        requires { p < pairs_of self.now }
        ensures { result ≡ place_in_list self.now.list p }
    {
        let Some(&stamp) = self.stamps.get(p as usize) else {
            return place_in(&self.batches, self.lanes, p);
        };
        if stamp == u32::MAX { None } else { Some(stamp) }
    }

    /// Indexes the list for constant-time look-up of places, until the list next changes. Makes one
    /// pass over the pairs and one over the entries. Allocates no memory, since the room is
    /// reserved.
    pub fn stamp_all(&mut self)
        ensures same { self.new ≡ self.old }
    {
        if self.stamps.is_empty() {
            refill(
                &mut self.stamps,
                (self.rows * self.lanes) as usize,
                u32::MAX,
            );
            write_stamps(&mut self.stamps, &self.batches, self.lanes);
        }
    }
}

/// Returns the place of the pair `p`. Searches the batches from the first one on.
fn place_in(batches: &[Batch], lanes: u32, p: u32) -> Option<u32>
    requires lanes { (0 < lanes) × (lanes ≤ 64) }
    requires each { AllByRecursion (IsBatch lanes) batches.now }
    requires few { length (entries_of lanes batches.now) < 2 ^ 32 }
    ensures { result ≡ place_in_list (entries_of lanes batches.now) p }
{
    let x = p / lanes;
    let lane = p % lanes;
    let mut place = 0;
    for j in 0..batches.len() {
        let batch = batch_in(batches, j);
        if has_lane(batch.row, batch.lanes, x, lane) {
            return Some(place + lanes_before(batch.lanes, lane));
        }
        place += lanes_in(batch.lanes);
    }
    None
}

/// Returns whether `row` is the row `x` and its word has the lane.
fn has_lane(row: u32, word: u64, x: u32, lane: u32) -> bool
    requires { lane < 64 }
    ensures { result ≡ (row == x && is_on word lane) }
{
    row == x && is_set(word, lane)
}

/// Returns the number of a word's lanes below `lane`.
#[tactic(auto, using(crate::proofs::Ones::ones_below))]
fn lanes_before(word: u64, lane: u32) -> u32
    requires { lane < 64 }
    ensures { result ≡ length (filter (is_on word) (below lane)) }
{
    (word & ((1 << lane) - 1)).count_ones()
}

/// Writes each entry's place as the stamp of its pair. Requires a table without stamps.
fn write_stamps(stamps: &mut [u32], batches: &[Batch], lanes: u32)
    requires blank { (p : ℕ) → p < length stamps.old → slice_index stamps.old p ≡ 2 ^ 32 - 1 }
    requires apart { IsDistinct (λ x y. x == y) (nodes_of (entries_of lanes batches.now)) }
    requires rows { (rows : ℕ) × (rows * lanes ≡ length stamps.old) × HasRowsBelow rows batches.now }
    requires lanes { 0 < lanes }
    requires each { AllByRecursion (IsBatch lanes) batches.now }
    requires few { length stamps.old < 2 ^ 32 }
    requires fits { length (entries_of lanes batches.now) < 2 ^ 32 }
    ensures { AreStamps (entries_of lanes batches.now) stamps.new }
{
    let mut place = 0;
    for j in 0..batches.len() {
        let batch = batch_in(batches, j);
        place = write_batch(stamps, batch.row * lanes, batch.lanes, place);
    }
}

/// Writes the places of a batch's entries, from `place` on, and returns the next place.
#[tactic(auto, using(crate::proofs::Lanes::lane_rules))]
fn write_batch(stamps: &mut [u32], first: u32, word: u64, place: u32) -> u32
    requires { CanWriteStamps stamps.old first word place }
    ensures stamped { stamps.new ≡ with_stamps place (map (λ lane. first + lane) (set_lanes word)) stamps.old }
    ensures long { length stamps.new ≡ length stamps.old }
    ensures next { result ≡ place + length (set_lanes word) }
{
    let mut rest = word;
    let mut next = place;
    'rest: while rest != 0 {
        let (lane, left) = first_lane(rest);
        stamps[(first + lane) as usize] = next;
        rest = left;
        next += 1;
    }
    next
}
