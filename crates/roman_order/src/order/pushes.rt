//! Adds entries to the list.
ghost use Rattle.std.specs.Prelude.{◌≡◌, ◌≢◌, ℕ, ◌+◌, ◌*◌, ◌<◌, ◌≤◌, true, false, List, [], ◌∷◌, ◌++◌, length, slice_index};
ghost use Rattle.roman_lanes.specs.Tables.{HasRoom, SameRoom};
ghost use Rattle.roman_order.specs.Board.{HasLanesOf, pairs_of, as_entry, set_lanes, with_rows, has_entry, with_row, AreAliveAt};
ghost use Rattle.roman_order.specs.Batches.{IsBatch, TakesLanes, entries_at, entries_of};
ghost use Rattle.roman_order.specs.Sound.{AreCounted, places_of};
ghost use Rattle.roman_order.specs.declared.batch.Batch.{Batch};

use super::Order;
use crate::batch::Batch;
use crate::flags::{lanes_in, lowest};
use roman_model::Reason;

impl Order {
    /// Adds an entry for the pair `p` at the end of the list. Requires a pair that isn't listed.
    #[tactic(auto, using(crate::proofs::Lanes::place_rules))]
    pub fn push(&mut self, p: u32, reason: Reason)
        requires in_range { p < pairs_of self.old }
        requires alive { has_entry self.old.list p ≡ false }
        ensures { self.new ≡ record self.old { list = self.old.list ++ as_entry (p, reason) ∷ [] } }
    {
        self.push_at(p / self.lanes, p % self.lanes, reason);
    }

    /// Adds an entry for the pair at a lane of the row `x` at the end of the list. Requires a pair
    /// that isn't listed.
    #[tactic(auto, using(crate::proofs::Lanes::one_rules))]
    pub fn push_at(&mut self, x: u32, lane: u32, reason: Reason)
        requires row { x < self.old.rows }
        requires lane { lane < self.old.lanes }
        requires alive { has_entry self.old.list (x * self.old.lanes + lane) ≡ false }
        ensures { self.new
            ≡ record self.old { list = self.old.list ++ as_entry (x * self.old.lanes + lane, reason) ∷ [] } }
    {
        prove!(self.lanes <= 64);
        self.push_lanes(x, 1 << lane, reason);
    }

    /// Adds an entry for each pair of the row `x` whose lane is a bit of `lost`, with rising lanes,
    /// all for one reason. Requires pairs that aren't listed.
    #[inline(always)]
    pub fn push_lanes(&mut self, x: u32, lost: u64, reason: Reason)
        requires row { x < self.old.rows }
        requires within { HasLanesOf self.old lost }
        requires alive { AreAliveAt self.old.list self.old.lanes x lost }
        ensures { self.new ≡ with_row self.old x lost reason }
    {
        self.push_row::<false>(x, lost, reason);
    }

    /// Adds entries as [`push_lanes`](Order::push_lanes) does. They go into the last batch if it is
    /// of the same row and reason and all its lanes are lower.
    #[inline(always)]
    pub fn push_on(&mut self, x: u32, lost: u64, reason: Reason)
        requires row { x < self.old.rows }
        requires within { HasLanesOf self.old lost }
        requires alive { AreAliveAt self.old.list self.old.lanes x lost }
        ensures { self.new ≡ with_row self.old x lost reason }
    {
        self.push_row::<true>(x, lost, reason);
    }

    /// Adds the entries of a row. If `JOINS` is true and the last batch can take them, they go into
    /// it.
    #[inline(always)]
    #[tactic(auto, using(crate::proofs::Tables::few))]
    fn push_row<const JOINS: bool>(&mut self, x: u32, lost: u64, reason: Reason)
        requires row { x < self.old.rows }
        requires within { HasLanesOf self.old lost }
        requires alive { AreAliveAt self.old.list self.old.lanes x lost }
        ensures { self.new ≡ with_row self.old x lost reason }
    {
        if lost == 0 {
            return;
        }
        self.words[x as usize] &= !lost;
        self.stamps.clear();
        let batch = Batch {
            row: x,
            reason,
            lanes: lost,
        };
        add_batch::<JOINS>(&mut self.batches, &mut self.firsts, self.count, batch);
        self.count += lanes_in(lost);
    }

    /// Adds entries for pairs of neighbouring rows, from the row `x` on, row by row, all for one
    /// reason. Word i of `lost` has the lanes of the pairs of row `x + i`. Requires pairs that aren't
    /// listed.
    #[tactic(auto, using(crate::proofs::Lanes::has_later))]
    pub fn push_rows(&mut self, x: u32, lost: &[u64], reason: Reason)
        requires rows { x + length lost.now ≤ self.old.rows }
        requires within { (i : ℕ) → HasLanesOf self.old (slice_index lost.now i) }
        requires alive { (i : ℕ) → AreAliveAt self.old.list self.old.lanes (x + i) (slice_index lost.now i) }
        ensures { self.new ≡ with_rows self.old x lost.now reason }
    {
        prove!(x as usize + lost.len() <= self.rows as usize);
        for i in 0..lost.len() {
            self.push_lanes(x + i as u32, lost[i], reason);
        }
    }
}

/// Adds a batch to others, which have `count` entries. If `JOINS` is true and the last of them can
/// take its lanes, they go into it.
#[inline(always)]
fn add_batch<const JOINS: bool>(
    batches: &mut Vec<Batch>,
    firsts: &mut Vec<u32>,
    count: u32,
    batch: Batch,
)
    requires lanes { batch.lanes ≢ 0 }
    requires few { length firsts.old.items ≤ length batches.old.items }
    requires room { HasRoom batches.old × HasRoom firsts.old }
    ensures entries { (lanes : ℕ) → entries_of lanes batches.new.items
        ≡ entries_of lanes batches.old.items ++ entries_at lanes batch }
    ensures counted { (lanes : ℕ) → AreCounted lanes count
        (places_of (length batches.old.items) firsts.old.items) batches.old.items → IsBatch lanes batch →
        AreCounted lanes (count + length (set_lanes batch.lanes))
        (places_of (length batches.new.items) firsts.new.items) batches.new.items }
    ensures room { SameRoom batches.old batches.new × SameRoom firsts.old firsts.new }
{
    if JOINS && takes(batches, batch) {
        let Some(last) = batches.pop() else {
            unreachable!()
        };
        let lanes = last.lanes | batch.lanes;
        batches.push_reserved(Batch { lanes, ..last });
        return;
    }
    push_first(firsts, batches.len(), count);
    batches.push_reserved(batch);
}

/// Returns whether the last batch can take the lanes of another one: it is of the same row and
/// reason, and all its lanes are lower. Requires that the other batch has a lane.
fn takes(batches: &[Batch], batch: Batch) -> bool
    requires { batch.lanes ≢ 0 }
    ensures some { result ≡ true → 0 < length batches.now }
    ensures last { result ≡ true → (front : List Batch) (e : Batch) → batches.now ≡ front ++ e ∷ [] →
        TakesLanes e batch }
{
    let Some(last) = batches.last() else {
        return false;
    };
    last.row == batch.row && last.reason == batch.reason && last.lanes >> lowest(batch.lanes) == 0
}

/// Adds the place of the first entry of a batch that follows `many` others. The table leaves out
/// the places at its front that equal the numbers of their batches.
#[inline(always)]
#[tactic(auto, using(crate::proofs::Firsts::push_rules))]
fn push_first(firsts: &mut Vec<u32>, many: usize, first: u32)
    requires room { HasRoom firsts.old }
    requires few { length firsts.old.items ≤ many }
    ensures places { places_of (many + 1) firsts.new.items ≡ places_of many firsts.old.items ++ first ∷ [] }
    ensures few { length firsts.new.items ≤ many + 1 }
    ensures room { SameRoom firsts.old firsts.new }
{
    if firsts.is_empty() && first as usize == many {
        return;
    }
    firsts.push_reserved(first);
}
