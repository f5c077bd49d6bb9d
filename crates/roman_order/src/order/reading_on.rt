//! Reads the list, entry by entry.
ghost use Rattle.std.specs.Prelude.{◌≡◌, ◌+◌, ◌<◌, length, slice_get, Some};
ghost use Rattle.roman_order.specs.Board.{as_entry, set_lanes};
ghost use Rattle.roman_order.specs.ReadAhead.{IsAhead};

use super::Order;
use crate::ahead::Ahead;
use crate::batch::Batch;
use crate::flags::first_lane;
use roman_model::Reason;

impl Order {
    /// Returns the entry at place `i` of the list: the pair and the reason. Requires an `ahead` that
    /// is new, or was last passed for place `i - 1`. Entries that were read ahead need no search.
    pub fn read_on(&self, i: u32, ahead: &mut Ahead) -> (u32, Reason)
        requires place { i < length self.now.list }
        requires ahead { IsAhead self.now i ahead.old }
        ensures entry { slice_get self.now.list i ≡ Some (as_entry result) }
        ensures ahead { IsAhead self.now (i + 1) ahead.new }
    {
        self.read_ahead(i, ahead);
        self.take_ahead(i, ahead)
    }

    /// Takes the entry at place `i` of the list, which is the first of those that were read ahead.
    #[inline(always)]
    #[tactic(auto, using(crate::proofs::Lanes::no_lane, crate::proofs::Reading::drop_next, crate::proofs::Reading::get_first))]
    pub(super) fn take_ahead(&self, i: u32, ahead: &mut Ahead) -> (u32, Reason)
        requires place { i < length self.now.list }
        requires ahead { IsAhead self.now i ahead.old }
        requires some { 0 < length (set_lanes ahead.old.batch.lanes) }
        ensures entry { slice_get self.now.list i ≡ Some (as_entry result) }
        ensures ahead { IsAhead self.now (i + 1) ahead.new }
    {
        self.known(); // a pair's number fits in 32 bits
        let batch = ahead.batch;
        let (lane, rest) = first_lane(batch.lanes);
        ahead.batch.lanes = rest;
        (batch.row * self.lanes + lane, batch.reason)
    }

    /// Reads ahead the entries from place `i` of the list on, if `ahead` has none.
    fn read_ahead(&self, i: u32, ahead: &mut Ahead)
        requires place { i < length self.now.list }
        requires ahead { IsAhead self.now i ahead.old }
        ensures ahead { IsAhead self.now i ahead.new }
        ensures some { 0 < length (set_lanes ahead.new.batch.lanes) }
    {
        if ahead.batch.len() == 0 {
            let batch: Batch = self.batch_at(i, ahead.next);
            *ahead = Ahead {
                batch,
                next: ahead.next.wrapping_add(1),
            };
        }
    }
}
