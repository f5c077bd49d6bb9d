//! Masks, and the number of seats in all masks together.
ghost use Rattle.std.specs.Prelude.{◌≡◌, ◌+◌, ◌*◌, ◌<◌, ◌≤◌, length};
ghost use Rattle.roman_model.specs.System.{has};
ghost use Rattle.roman_model.specs.Arena.{is_listed, choices};
ghost use Rattle.roman_rules.specs.Bits.{HasBits};
ghost use Rattle.roman_relation.specs.Shaped.{HasShapeOf, mask_by, choices_in_band};

use roman_order::Order;
use roman_rules::{Rules, SeatSet};

/// Returns the mask of the action `a` at the pair `p`: the seats that have an outcome there, and
/// only outcomes that aren't listed.
pub(crate) fn mask<J: Rules>(joint: &J, order: &Order, p: u32, a: u8) -> SeatSet
    requires shaped { HasShapeOf J.Rules joint.now order.now }
    requires pair { p < length (J.arena joint.now).nodes }
    requires action { a < (J.arena joint.now).actions }
    ensures { HasBits result (has (mask_by (J.arena joint.now) order.now.list p a)) }
{
    joint.known(); // no two pairs have the same number
    order.known(); // a row has 1 to 64 lanes
    let lanes = joint.lanes();
    let row = joint.row(p / lanes);
    joint.mask(&row, order.words(), a, p % lanes)
}

/// Returns the number of seats in the masks of all pairs and actions together.
pub(crate) fn choices<J: Rules>(joint: &J, order: &Order) -> u64
    requires { HasShapeOf J.Rules joint.now order.now }
    ensures { let A = J.arena joint.now in result ≡ choices A (is_listed A order.now.list) }
{
    joint.known(); // a row has 1 to 64 lanes, a band has 1 to 64 rows
    let mut count = 0;
    for y in 0..joint.bands() {
        count += band_choices(joint, order, y);
    }
    count
}

/// Returns the number of seats in the masks of the pairs of the band `y` together, over all actions.
/// It is at most 4,194,304.
#[tactic(auto, using(crate::proofs::Bands::band_begins))]
fn band_choices<J: Rules>(joint: &J, order: &Order, y: u32) -> u64
    requires shaped { HasShapeOf J.Rules joint.now order.now }
    requires band { y * J.band joint.now < order.now.rows }
    ensures counted { result ≡ choices_in_band J.Rules joint.now order.now.list y }
    ensures bound { result ≤ 4194304 }
{
    joint.known(); // there are at most 32 actions, a row has 1 to 64 lanes
    order.known(); // a row has 1 to 64 lanes
    let row = joint.first_row(y);
    let words = order.words();
    let mut count = 0;
    for a in 0..joint.actions() {
        count += u64::from(joint.choices(&row, words, a));
    }
    count
}
