//! The pairs that aren't listed, as words, and kept copies of these words.
ghost use Rattle.std.specs.Prelude.{◌≡◌, ℕ, ◌+◌, ◌<◌, ◌≤◌, length, slice_index};
ghost use Rattle.roman_lanes.specs.Words.{SameOutside, SameWithin};
ghost use Rattle.roman_order.specs.Board.{AreWordsOf, ChangesOnlyBefore, IsWordOf};

use super::{Order, rewrite};

impl Order {
    /// Returns the pairs that aren't listed: one word for each row, with bit l for the pair at lane l.
    pub fn words(&self) -> &[u64]
        ensures alive { AreWordsOf self.now result.now }
        ensures long { length result.now ≡ self.now.rows }
    {
        &self.words
    }

    /// Returns the kept words: the word of each row as it was when it was last kept.
    pub fn before(&self) -> &[u64]
        ensures value { result.now ≡ self.now.before }
        ensures long { length result.now ≡ self.now.rows }
    {
        &self.before
    }

    /// Stores the present words of all rows as the kept words, in one pass over them.
    pub fn keep_before(&mut self)
        ensures kept { AreWordsOf self.old self.new.before }
        ensures long { length self.new.before ≡ self.old.rows }
        ensures rest { ChangesOnlyBefore self.old self.new }
    {
        rewrite(&mut self.before, &self.words);
    }

    /// Stores the present words of `many` rows from the row `x` on as their kept words. Leaves the
    /// kept words of other rows unchanged.
    pub fn keep_rows(&mut self, x: u32, many: u32)
        requires { x + many ≤ self.old.rows }
        ensures kept { (y : ℕ) → x ≤ y → y < x + many → IsWordOf self.old y (slice_index self.new.before y) }
        ensures others { SameOutside x (x + many) self.old.before self.new.before }
        ensures long { length self.new.before ≡ length self.old.before }
        ensures rest { ChangesOnlyBefore self.old self.new }
    {
        let from = x as usize;
        copy_between(&mut self.before, &self.words, from, from + many as usize);
    }
}

/// Copies the words from place `from` up to place `to`, without the one at `to`. Copies a single word
/// directly.
#[inline(always)]
fn copy_between(table: &mut [u64], words: &[u64], from: usize, to: usize)
    requires { (from ≤ to) × (to ≤ length table.old) × (to ≤ length words.now) }
    ensures copied { SameWithin from to words.now table.new }
    ensures others { SameOutside from to table.old table.new }
    ensures long { length table.new ≡ length table.old }
{
    if to - from == 1 {
        table[from] = words[from];
        return;
    }
    table[from..to].copy_from_slice(&words[from..to]);
}
