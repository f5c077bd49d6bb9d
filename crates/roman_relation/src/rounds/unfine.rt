//! Lists the pairs that don't meet clause 2.
ghost use Rattle.std.specs.Prelude.{◌≡◌, ℕ, ◌+◌, ◌*◌, ◌<◌, ◌≤◌, length};
ghost use Rattle.roman_model.specs.Arena.{IsOrder};
ghost use Rattle.roman_relation.specs.Shaped.{InRows, HasShapeOf, IsOrderFor};
ghost use Rattle.roman_relation.specs.Settled.{AddsUnfine, IsFineOrListed, SettlesOn};

use super::listing::{are_listed, band_start, push_lost};
use roman_model::Reason;
use roman_order::Order;
use roman_rules::{BAND, Rules, copy_rows};

/// Lists the pairs that aren't listed and don't meet clause 2.
pub(crate) fn list_unfine<J: Rules>(joint: &J, order: &mut Order)
    requires { IsOrderFor J.Rules joint.now order.old }
    ensures goes_on { SettlesOn (J.arena joint.now) order.old order.new }
    ensures fine { let A = J.arena joint.now in (p : ℕ) → p < length A.nodes → IsFineOrListed A order.new.list p }
    ensures because { AddsUnfine (J.arena joint.now) order.old.list order.new.list }
{
    joint.known(); // a row has 1 to 64 lanes
    let mut words = [0; BAND];
    let left = &mut words[..joint.band() as usize];
    let resting = joint.resting();
    for y in 0..joint.bands() {
        list_unfine_band(joint, order, y, resting, left);
    }
}

/// Lists the pairs of the band `y` that aren't listed and don't meet clause 2.
#[tactic(auto, using(crate::proofs::Bands::band_begins))]
fn list_unfine_band<J: Rules>(joint: &J, order: &mut Order, y: u32, resting: u64, left: &mut [u64])
    requires shaped { HasShapeOf J.Rules joint.now order.old }
    requires band { y * J.band joint.now + J.band joint.now ≤ order.old.rows }
    requires resting { J.is_resting joint.now resting }
    requires left { length left.old ≡ J.band joint.now }
    requires valid { IsOrder (J.arena joint.now) order.old.list }
    ensures goes_on { SettlesOn (J.arena joint.now) order.old order.new }
    ensures long { length left.new ≡ length left.old }
    ensures fine { let A = J.arena joint.now in
        InRows (J.lanes joint.now) (y * J.band joint.now) (J.band joint.now) (IsFineOrListed A order.new.list) }
    ensures because { AddsUnfine (J.arena joint.now) order.old.list order.new.list }
{
    joint.known(); // a row has 1 to 64 lanes, each pair has its own number, of 32 bits
    let x = band_start(joint, order, y);
    if are_listed(joint, order, x) {
        return;
    }
    let row = joint.first_row(y);
    order.known(); // each row has a kept word
    copy_rows(order.words(), x, left);
    joint.unfine_band(&row, resting, left);
    push_lost(joint, order, x, left, Reason::Final);
}
