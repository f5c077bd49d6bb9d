//! Batches: neighbouring entries of a removal list, as the tables hold them.
ghost use Rattle.std.specs.Prelude.{◌≡◌, length};
ghost use Rattle.roman_order.specs.Board.{set_lanes};

use crate::flags::lanes_in;
use roman_model::Reason;
use std::mem::size_of;

const _: () = prove!(size_of::<Batch>() == 16);

/// Neighbouring entries of a list: one for each pair of a row whose lane is a set bit of a word, with
/// rising lanes, all for one reason.
#[derive(Clone, Copy)]
pub struct Batch {
    pub row: u32,
    pub reason: Reason,
    pub lanes: u64,
}

impl Batch {
    /// Returns the number of entries, by counting the lanes.
    pub fn len(self) -> u32
        ensures { result ≡ length (set_lanes self.lanes) }
    {
        lanes_in(self.lanes)
    }
}
