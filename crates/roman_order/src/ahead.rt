//! The entries that a pass through the list has read ahead.
ghost use Rattle.std.specs.Prelude.{ℕ};
ghost use Rattle.roman_order.specs.Board.{Board};
ghost use Rattle.roman_order.specs.ReadAhead.{IsAhead};

use crate::batch::Batch;
use roman_model::Reason;

/// The entries that a pass through the list has read ahead: the next ones of one batch.
#[derive(Clone, Copy)]
pub struct Ahead {
    // the remaining entries of a batch
    pub(crate) batch: Batch,
    // a guess of the place of the next batch; a wrong guess costs a search
    pub(crate) next: usize,
}

impl Ahead {
    /// Returns an `Ahead` without entries, for any list. The pass first looks for its next entries in
    /// the batch at place `next`. If they aren't there, it searches for them.
    #[tactic(auto, using(crate::proofs::Lanes::no_lanes))]
    pub fn nothing(next: usize) -> Ahead
        ensures { (order : Board) (i : ℕ) → IsAhead order i result }
    {
        Ahead {
            batch: Batch {
                row: 0,
                reason: Reason::Final,
                lanes: 0,
            },
            next,
        }
    }

    /// Returns the place of the batch in which the pass looks next.
    pub fn next(&self) -> usize {
        self.next
    }
}
