//! Marks on numbers. The callers mark bands or pairs.
ghost use Rattle.std.specs.Prelude.{◌≡◌, ℕ, ◌+◌, ◌/◌, ◌<◌, ◌≤◌, true, false, nat_lt, length, IfSome, IfNone};
ghost use Rattle.std.specs.Borrow.{sem};
ghost use Rattle.roman_lanes.specs.Flags.{SameFlagsBut};
ghost use Rattle.roman_order.specs.Board.{ChangesOnlyMarks, NoneMarkedBelow, TakesMark, pairs_of, is_marked};
ghost use Rattle.roman_order.specs.Lending.{LendsMarks};

use super::{Order, refill};
use crate::flags;

impl Order {
    /// Marks the number `p`. Requires `p` below the number of pairs. The caller decides whether the
    /// numbers are those of pairs or of bands.
    pub fn mark(&mut self, p: u32)
        requires { p < pairs_of self.old }
        ensures marked { is_marked self.new p ≡ true }
        ensures others { SameFlagsBut p self.old.marks self.new.marks }
        ensures long { length self.new.marks ≡ length self.old.marks }
        ensures rest { ChangesOnlyMarks self.old self.new }
    {
        flags::set(&mut self.marks, p);
    }

    /// Returns whether the number `p` is marked. Requires `p` below the number of pairs.
    pub fn marked(&self, p: u32) -> bool
        requires { p < pairs_of self.now }
        ensures { result ≡ is_marked self.now p }
    {
        flags::has(&self.marks, p)
    }

    /// Marks the numbers below `end`, and clears all other marks.
    #[tactic(auto, using(crate::proofs::Words::blank_at))]
    pub fn mark_front(&mut self, end: u32)
        requires { end ≤ pairs_of self.old }
        ensures marked { (p : ℕ) → is_marked self.new p ≡ nat_lt p end }
        ensures long { length self.new.marks ≡ length self.old.marks }
        ensures rest { ChangesOnlyMarks self.old self.new }
    {
        let many = self.marks.len();
        refill(&mut self.marks, many, 0);
        flags::set_front(&mut self.marks, end);
    }

    /// Clears one mark, and returns its number. Searches the words with the flags of the numbers
    /// below `end`. If `end` isn't a multiple of 64, the last of these words also has flags of
    /// higher numbers, and the search can find those. Returns `None` exactly if none of these words
    /// has a set flag. The search begins at the word of the last mark found, and wraps round once,
    /// so the numbers don't come in rising order.
    #[tactic(auto, using(crate::proofs::Words::flag_off))]
    pub fn next_marked(&mut self, end: u32) -> Option<u32>
        requires { end ≤ pairs_of self.old }
        ensures none { IfNone result (NoneMarkedBelow self.old end) }
        ensures taken { IfSome result (TakesMark self.old self.new) }
        ensures same { IfNone result (self.new ≡ self.old) }
        ensures long { length self.new.marks ≡ length self.old.marks }
        ensures rest { ChangesOnlyMarks self.old self.new }
    {
        let many = flags::words_for(end);
        let Some(i) = flags::next_word(&self.marks, many, self.cursor) else {
            self.cursor = 0;
            return None;
        };
        self.cursor = i;
        Some(flags::take_first(&mut self.marks, i))
    }

    /// Lends the marks as words of 64 flags, which can be written: number p is bit `p % 64` of word
    /// `p / 64`.
    pub fn marks_mut(&mut self) -> &mut [u64]
        ensures* lends { sem 𝓛 (LendsMarks self.entry result) }
        ensures value { result.now ≡ self.old.marks }
        ensures long { length result.now ≡ (pairs_of self.old + 63) / 64 }
    {
        &mut self.marks
    }

    /// Clears all marks, in one pass over their words.
    #[tactic(auto, using(crate::proofs::Words::no_flags))]
    pub fn clear_marks(&mut self)
        ensures unmarked { (p : ℕ) → is_marked self.new p ≡ false }
        ensures long { length self.new.marks ≡ length self.old.marks }
        ensures rest { ChangesOnlyMarks self.old self.new }
    {
        let many = self.marks.len();
        refill(&mut self.marks, many, 0);
    }
}
