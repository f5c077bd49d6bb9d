//! The seats that may rest: within the lanes, at a row, and in the rows of a band.
ghost use Rattle.std.specs.Prelude.{◌≡◌, ℕ, ◌<◌, ◌≤◌, ◌||◌, ltb, length, slice_get, slice_index};
ghost use Rattle.roman_model.specs.Lists.{all_below};
ghost use Rattle.roman_model.specs.Numbers.{sizes_of};
ghost use Rattle.roman_lanes.specs.Rows.{is_on};
ghost use Rattle.roman_joint.specs.NamedSys.{system_of};
ghost use Rattle.roman_joint.specs.Rows.{lanes_in, low_in, lane_state_of, IsRow, may_rest as may_rest_in};
ghost use Rattle.roman_joint.specs.Bands.{mid_in, band_in};
ghost use Rattle.roman_radix.specs.Rows.{row_sizes};

use crate::joint::Joint;
use crate::row::Row;
use crate::states::{may_rest, row_state, state_lanes};
use crate::words::with_lanes;

/// Returns the lanes in which a seat within the lanes may rest.
pub(crate) fn rests_within(joint: &Joint, k: u8) -> u64
    requires within { low_in (system_of joint.now) ≤ k }
    requires seat { k < length joint.now.seats }
    ensures { let s = system_of joint.now in
        (lane : ℕ) → lane < lanes_in s → is_on result lane
        ≡ may_rest_in (slice_get s.seats k) (lane_state_of (sizes_of s) k lane) }
{
    let shape = joint.shape();
    let rows = joint.layout();
    let mut lanes = 0;
    for b in 0..rows.sizes[k as usize] {
        let in_state = state_lanes(shape, rows, k, b);
        let rests = may_rest(joint, k, b);
        lanes = with_lanes(lanes, in_state, rests);
    }
    lanes
}

/// Returns whether the first `many` seats may rest at a row. All of them are before the lanes.
#[tactic(auto, using(crate::proofs::GoodLemmas::seats_few))]
pub(crate) fn front_rests(joint: &Joint, row: &Row, many: u8) -> bool
    requires row { (x : ℕ) × IsRow (system_of joint.now) x row.now }
    requires many { many ≤ low_in (system_of joint.now) }
    ensures { let s = system_of joint.now in
        result ≡ all_below (λ k. may_rest_in (slice_get s.seats k) (slice_index row.now.states k)) many }
{
    joint.known(); // there are at most 32 seats
    for k in 0..many {
        if !may_rest(joint, k, row.states[k as usize]) {
            return false;
        }
    }
    true
}

/// Returns whether the band's own seats may rest in row `i` of a band, counted from its first row.
pub(crate) fn own_rests(joint: &Joint, i: u32) -> bool
    requires { i < band_in (system_of joint.now) }
    ensures { let s = system_of joint.now in
        result ≡ all_below (λ k. ltb k (mid_in s)
        || may_rest_in (slice_get s.seats k) (lane_state_of (row_sizes (sizes_of s)) k i)) (low_in s) }
{
    let rows = joint.layout();
    for k in rows.mid..rows.low {
        if !may_rest(joint, k, row_state(joint, k, i)) {
            return false;
        }
    }
    true
}
