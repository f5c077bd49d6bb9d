//! The removal list, and the tables beside it.
ghost use Rattle.std.specs.Prelude.{◌≡◌, ℕ, ◌+◌, ◌*◌, ◌/◌, ◌<◌, ◌≤◌, ◌==◌, not, true, false, [], ◌∷◌, ◌++◌, length, replicate, count_by, vec_capacity, IfOk, IfSome, IfNone};
ghost use Rattle.std.specs.List.{IsDistinct};
ghost use Rattle.roman_model.specs.Lists.{below};
ghost use Rattle.roman_order.specs.Board.{ChangesOnlyWaiting, StaysIdle, pairs_of, as_entry, nodes_of, has_entry, is_marked};
ghost use Rattle.roman_order.specs.Batches.{IsBatch, entries_at};

mod levels;
mod marks;
mod places;
mod pushes;
mod reading;
mod reading_on;
mod words;

use self::reading::batch_in;
use crate::batch::Batch;
use crate::flags::{self, first_lane};
use roman_model::Reason;
use std::alloc::{AllocError, Global};
use std::marker::Model;
use std::mem;

/// The number of items of a table that are written at once.
const PIECE: usize = 256;

/// The removal list of a system's pairs, the pairs that aren't listed as words, marks, and, on
/// request, each pair's place in the list.
///
/// An order is shaped for a number of rows and lanes: pair p is lane `p % lanes` of row `p / lanes`.
/// Pairs and rows that are passed must be in range for this shape. The shape has at most as many pairs
/// as the order has room for, so no call runs out of room.
pub struct Order {
    // the greatest number of pairs
    room: u32,
    rows: u32,
    lanes: u32,
    // the number of entries of the list
    count: u32,
    // the first batch of `waiting` that still waits, and the number of lanes in the rows of these
    // batches
    next: usize,
    waiting_lanes: u32,
    // the word at which the search for marks continues
    cursor: usize,
    // the list; each batch has lanes
    batches: Vec<Batch>,
    // the place of each batch's first entry
    firsts: Vec<u32>,
    waiting: Vec<Batch>,
    // each pair's place in the list, or `u32::MAX`; empty unless `stamp_all` has filled it
    stamps: Vec<u32>,
    // a word for each row, with the bits of its pairs that aren't listed
    words: Vec<u64>,
    before: Vec<u64>,
    marks: Vec<u64>,
    // the length of the list at the end of each of its levels
    levels: Vec<u32>,
}

// One proof step. A derived drop is a step for each vector, at each exit of a function that owns it.
impl Drop for Order {
    fn drop(self) {
        let Order {
            room: _,
            rows: _,
            lanes: _,
            count: _,
            next: _,
            waiting_lanes: _,
            cursor: _,
            batches: _,
            firsts: _,
            waiting: _,
            stamps: _,
            words: _,
            before: _,
            marks: _,
            levels: _,
        } = self;
    }
}

impl Model for Order {
    ghost use Rattle.roman_order.specs.Board.{Board};

    ghost Value = { Board };

    ghost use Rattle.roman_order.specs.Sound.{board_of, IsSound};

    ghost view = { board_of };

    ghost invariant = { IsSound };
}

impl Order {
    /// Makes an order for at most `cap_pairs` pairs, shaped for no rows. Reserves room for as many
    /// entries, for as many waiting entries, and for words, kept words, places, marks and levels.
    /// Writes none of it, so the pages of unused room stay untouched. No other call but
    /// [`copy`](Order::copy) allocates memory.
    ///
    /// Fails only when out of memory.
    pub fn build(alloc: Global, cap_pairs: u32) -> Result<Order, AllocError>
        ensures { IfOk result (λ order. order ≡ record {
          cap_pairs = cap_pairs;
          rows = 0;
          lanes = 1;
          list = [];
          waiting = [];
          waiting_lanes = 1;
          marks = [];
          before = [];
          levels = [];
        }) }
    {
        let places = cap_pairs as usize;
        Ok(Order {
            room: cap_pairs,
            rows: 0,
            lanes: 1,
            count: 0,
            next: 0,
            waiting_lanes: 1,
            cursor: 0,
            batches: Vec::with_capacity(alloc, places)?,
            firsts: Vec::with_capacity(alloc, places)?,
            waiting: Vec::with_capacity(alloc, places)?,
            stamps: Vec::with_capacity(alloc, places)?,
            words: Vec::with_capacity(alloc, places)?,
            before: Vec::with_capacity(alloc, places)?,
            marks: Vec::with_capacity(alloc, flags::words_for(cap_pairs))?,
            levels: Vec::with_capacity(alloc, places + 1)?,
        })
    }

    /// Makes an equal order with its own tables and the same room, in one pass over the contents of
    /// the tables. Doesn't copy the places that [`stamp_all`](Order::stamp_all) made.
    ///
    /// Fails only when out of memory.
    pub fn copy(&self, alloc: Global) -> Result<Order, AllocError>
        ensures { IfOk result (λ order. order ≡ self.now) }
    {
        let places = self.room as usize;
        Ok(Order {
            room: self.room,
            rows: self.rows,
            lanes: self.lanes,
            count: self.count,
            next: self.next,
            waiting_lanes: self.waiting_lanes,
            cursor: self.cursor,
            batches: copied(alloc, &self.batches, places)?,
            firsts: copied(alloc, &self.firsts, places)?,
            waiting: copied(alloc, &self.waiting, places)?,
            stamps: Vec::with_capacity(alloc, places)?,
            words: copied(alloc, &self.words, places)?,
            before: copied(alloc, &self.before, places)?,
            marks: copied(alloc, &self.marks, flags::words_for(self.room))?,
            levels: copied(alloc, &self.levels, places + 1)?,
        })
    }

    /// Makes this order equal to `from`, in one pass over the contents of its tables, whatever
    /// their capacity. Requires that `from` has the same room and no waiting entries. Allocates no
    /// memory.
    #[tactic(auto, using(crate::proofs::Tables::reset_rules))]
    pub fn reset_to(&mut self, from: &Order)
        requires room { self.old.cap_pairs ≡ from.now.cap_pairs }
        requires idle { from.now.waiting ≡ [] }
        ensures { self.new ≡ from.now }
    {
        rewrite(&mut self.batches, &from.batches);
        rewrite(&mut self.firsts, &from.firsts);
        rewrite(&mut self.words, &from.words);
        rewrite(&mut self.before, &from.before);
        rewrite(&mut self.marks, &from.marks);
        rewrite(&mut self.levels, &from.levels);
        self.stamps.clear();
        self.waiting.clear();
        self.next = 0;
        self.waiting_lanes = from.waiting_lanes;
        self.count = from.count;
        self.cursor = from.cursor;
        self.rows = from.rows;
        self.lanes = from.lanes;
    }

    /// Empties the order, and shapes it for `rows` rows of `lanes` pairs each, in one pass over the
    /// rows. Then no pair is listed, and nothing is marked. Requires an order without waiting entries,
    /// `lanes` from 1 to 64, and at most as many pairs as there is room for.
    #[tactic(auto, using(crate::proofs::Words::no_flags))]
    pub fn shape_to(&mut self, rows: u32, lanes: u32)
        requires pairs { rows * lanes ≤ self.old.cap_pairs }
        requires lanes { (0 < lanes) × (lanes ≤ 64) }
        requires idle { self.old.waiting ≡ [] }
        ensures shaped { self.new ≡ record self.old {
          rows = rows;
          lanes = lanes;
          list = [];
          marks = self.new.marks;
          before = self.new.before;
          levels = [];
        } }
        ensures unmarked { (p : ℕ) → is_marked self.new p ≡ false }
    {
        let waiting_lanes = self.waiting_lanes;
        self.reopen(rows, lanes);
        self.waiting.clear();
        self.next = 0;
        self.waiting_lanes = waiting_lanes;
    }

    /// Makes the entries of the list wait, in order, and begins an empty list for `rows` rows of
    /// `lanes` pairs each. Then no pair is listed, and nothing is marked. Moves no entries, and passes
    /// over the rows once. Requires an order without waiting entries, `lanes` from 1 to 64, and at
    /// most as many pairs as there is room for.
    #[tactic(auto, using(crate::proofs::Words::no_flags))]
    pub fn reopen(&mut self, rows: u32, lanes: u32)
        requires pairs { rows * lanes ≤ self.old.cap_pairs }
        requires lanes { (0 < lanes) × (lanes ≤ 64) }
        requires idle { self.old.waiting ≡ [] }
        ensures moved { self.new ≡ record self.old {
          rows = rows;
          lanes = lanes;
          list = [];
          waiting = self.old.list;
          waiting_lanes = self.old.lanes;
          marks = self.new.marks;
          before = self.new.before;
          levels = [];
        } }
        ensures unmarked { (p : ℕ) → is_marked self.new p ≡ false }
    {
        self.waiting.clear();
        mem::swap(&mut self.batches, &mut self.waiting);
        self.waiting_lanes = self.lanes;
        self.firsts.clear();
        self.count = 0;
        self.stamps.clear();
        self.levels.clear();
        self.next = 0;
        let pairs = rows * lanes;
        refill(&mut self.words, rows as usize, u64::MAX >> (64 - lanes));
        refill(&mut self.before, rows as usize, 0);
        refill(&mut self.marks, flags::words_for(pairs), 0);
        self.rows = rows;
        self.lanes = lanes;
    }

    /// Takes the first waiting entry: a pair of the shape before the order was reopened, with its
    /// reason. Returns `None` exactly if no entry waits.
    #[tactic(auto, using(crate::proofs::Reading::waiting_rules))]
    pub fn next_waiting(&mut self) -> Option<(u32, Reason)>
        ensures none { IfNone result (StaysIdle self.old self.new) }
        ensures first { IfSome result (λ x. self.old.waiting ≡ as_entry x ∷ self.new.waiting) }
        ensures rest { ChangesOnlyWaiting self.old self.new }
    {
        if self.next == self.waiting.len() {
            return None;
        }
        let first = batch_in(&self.waiting, self.next);
        let (lane, left) = first_lane(first.lanes);
        let pair = first.row * self.waiting_lanes + lane;
        if left == 0 {
            self.next += 1;
        } else {
            self.waiting[self.next] = Batch {
                lanes: left,
                ..first
            };
        }
        Some((pair, first.reason))
    }

    /// Takes the waiting entries of the first batch together, as a batch of the shape before the
    /// order was reopened. Returns `None` exactly if no entry waits.
    #[tactic(auto, using(crate::proofs::Batches::rest_waits))]
    pub fn next_waiting_batch(&mut self) -> Option<Batch>
        ensures none { IfNone result (StaysIdle self.old self.new) }
        ensures first { IfSome result (λ e. self.old.waiting
            ≡ entries_at self.old.waiting_lanes e ++ self.new.waiting) }
        ensures batch { IfSome result (IsBatch self.old.waiting_lanes) }
        ensures rest { ChangesOnlyWaiting self.old self.new }
    {
        if self.next == self.waiting.len() {
            return None;
        }
        let batch = batch_in(&self.waiting, self.next);
        self.next += 1;
        Some(batch)
    }

    /// Does nothing. Its contract states what holds of every order: the pairs of the list are distinct
    /// and in range, there is room for the pairs of the shape, a row has 1 to 64 lanes, and there are
    /// as many mark words and kept words as the shape needs.
    #[tactic(auto, using(crate::proofs::Tables::few_listed))]
    pub fn known(&self)
        ensures distinct { IsDistinct (λ x y. x == y) (nodes_of self.now.list) }
        ensures in_range { (p : ℕ) → has_entry self.now.list p ≡ true → p < pairs_of self.now }
        ensures bound { length self.now.list ≤ pairs_of self.now }
        ensures room { pairs_of self.now ≤ self.now.cap_pairs }
        ensures lanes { (0 < self.now.lanes) × (self.now.lanes ≤ 64) }
        ensures marks { length self.now.marks ≡ (pairs_of self.now + 63) / 64 }
        ensures before { length self.now.before ≡ self.now.rows }
    {
        let _batches = &self.batches;
    }

    /// Returns the length of the list, at most the number of pairs, without counting the entries.
    pub fn len(&self) -> u32
        ensures value { result ≡ length self.now.list }
    {
        self.count
    }

    /// Returns the number of pairs that aren't listed: the number of pairs minus the length of the
    /// list, without a pass over them.
    #[tactic(auto, using(crate::proofs::Counts::counted_unlisted))]
    pub fn unlisted(&self) -> u32
        ensures counted { result ≡ count_by (λ p. not (has_entry self.now.list p)) (below (pairs_of self.now)) }
        ensures rest { result + length self.now.list ≡ pairs_of self.now }
    {
        self.known(); // no pair is listed twice, listed pairs are pairs of the system
        self.rows * self.lanes - self.len()
    }

    /// Returns whether the pair `p` isn't listed, by the bit of its lane in its row's word.
    #[tactic(auto, using(crate::proofs::Lanes::place_rules))]
    pub fn alive(&self, p: u32) -> bool
        requires { p < pairs_of self.now }
        ensures { result ≡ not (has_entry self.now.list p) }
    {
        flags::is_set(self.words[(p / self.lanes) as usize], p % self.lanes)
    }
}

/// Makes a table with the same items, and with room for at least `room` items.
fn copied<T: Copy>(alloc: Global, items: &[T], room: usize) -> Result<Vec<T>, AllocError>
    ensures items { IfOk result (λ table. table.items ≡ items.now) }
    ensures room { IfOk result (λ table. room ≤ vec_capacity table) }
{
    let mut table = Vec::with_capacity(alloc, room)?;
    table.extend_from_slice(items)?;
    Ok(table)
}

/// Replaces the items of a table, which must have room for the new ones. Copies them piece by
/// piece: glibc copies longer pieces by `rep movsb`, which counts as one instruction for each byte.
#[tactic(auto, using(crate::proofs::Tables::piece_rules))]
fn rewrite<T: Copy + Drop>(table: &mut Vec<T>, items: &[T])
    requires { length items.now ≤ vec_capacity table.old }
    ensures items { table.new.items ≡ items.now }
    ensures room { vec_capacity table.old ≤ vec_capacity table.new }
{
    table.clear();
    let mut done = 0;
    'pieces: while done < items.len() {
        let end = done + (items.len() - done).min(PIECE);
        let Ok(()) = table.extend_from_slice(&items[done..end]) else {
            unreachable!()
        };
        done = end;
    }
}

/// Replaces the items of a table by `n` copies of a value. Requires room for them. Writes them
/// piece by piece: glibc fills longer pieces by `rep stosb`, which counts as one instruction for
/// each byte.
#[tactic(auto, using(crate::proofs::Tables::piece_rules))]
fn refill<T: Copy + Drop>(table: &mut Vec<T>, n: usize, value: T)
    requires { n ≤ vec_capacity table.old }
    ensures items { table.new.items ≡ replicate n value }
    ensures room { vec_capacity table.old ≤ vec_capacity table.new }
{
    table.clear();
    let mut done = 0;
    'pieces: while done < n {
        done += (n - done).min(PIECE);
        let Ok(()) = table.resize(done, value) else {
            unreachable!()
        };
    }
}
