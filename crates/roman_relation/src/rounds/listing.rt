//! Lists pairs of a band.
ghost use Rattle.std.specs.Prelude.{◌≡◌, ℕ, ◌+◌, ◌*◌, ◌≤◌, true, Bool, IsTrue, length};
ghost use Rattle.roman_model.specs.Arena.{is_listed};
ghost use Rattle.roman_order.specs.Board.{ChangesOnlyList};
ghost use Rattle.roman_relation.specs.Shaped.{InRows, HasShapeOf};
ghost use Rattle.roman_relation.specs.Rounds.{AddsLost, AreLostRows};

use roman_model::Reason;
use roman_order::Order;
use roman_rules::{Rules, are_clear};

/// Returns the first row of the band `y`.
pub(crate) fn band_start<J: Rules>(joint: &J, order: &Order, y: u32) -> u32
    requires shaped { HasShapeOf J.Rules joint.now order.now }
    requires band { y * J.band joint.now + J.band joint.now ≤ order.now.rows }
    ensures { result ≡ y * J.band joint.now }
{
    joint.known(); // a pair's number fits in 32 bits
    order.known(); // a row has 1 to 64 lanes
    y * joint.band()
}

/// Returns true only if all pairs of the band whose first row is `x` are listed.
pub(crate) fn are_listed<J: Rules>(joint: &J, order: &Order, x: u32) -> bool
    requires shaped { HasShapeOf J.Rules joint.now order.now }
    requires band { x + J.band joint.now ≤ order.now.rows }
    ensures { result ≡ true → InRows (J.lanes joint.now) x (J.band joint.now)
        (λ p. IsTrue (is_listed (J.arena joint.now) order.now.list p)) }
{
    joint.known(); // no two pairs have the same number
    order.known(); // listed pairs are pairs of the system
    let words = order.words();
    are_clear(&words[x as usize..(x + joint.band()) as usize])
}

/// Lists the pairs that the band whose first row is `x` loses for a reason.
pub(crate) fn push_lost<J: Rules>(
    joint: &J,
    order: &mut Order,
    x: u32,
    lost: &[u64],
    reason: Reason,
)
    requires shaped { HasShapeOf J.Rules joint.now order.old }
    requires band { x + J.band joint.now ≤ order.old.rows }
    requires long { length lost.now ≡ J.band joint.now }
    requires lost { (gone : ℕ → Bool) × AreLostRows (J.arena joint.now) gone order.old.list (J.lanes joint.now) x
        (J.band joint.now) reason lost.now }
    ensures adds { let A = J.arena joint.now in
        (gone : ℕ → Bool) → AreLostRows A gone order.old.list (J.lanes joint.now) x (J.band joint.now) reason lost.now →
        AddsLost A gone (J.lanes joint.now) x (J.band joint.now) reason order.old.list order.new.list }
    ensures rest { ChangesOnlyList order.old order.new }
{
    if are_clear(lost) {
        return;
    }
    joint.known(); // no two pairs have the same number
    order.push_rows(x, lost, reason);
    order.known(); // no pair is listed twice
}
