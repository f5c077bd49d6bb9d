//! Judges the marked bands against the kept words.
ghost use Rattle.std.specs.Prelude.{◌≡◌, ℕ, ◌+◌, ◌*◌, ◌/◌, ◌<◌, ◌≤◌, Bool, true, false, IsTrue, length};
ghost use Rattle.roman_lanes.specs.Rows.{is_on};
ghost use Rattle.roman_order.specs.Board.{ChangesOnlyList, is_marked};
ghost use Rattle.roman_relation.specs.Shaped.{HasShapeOf};
ghost use Rattle.roman_relation.specs.Rounds.{AddsLost, AddsTo, HasKept, IsJudged, falls};

use super::listing::{are_listed, band_start, push_lost};
use roman_model::Reason;
use roman_order::Order;
use roman_rules::{BAND, Rules, copy_rows};

/// Judges the marked bands, and clears their marks.
pub(crate) fn judge_marked<J: Rules>(joint: &J, order: &mut Order)
    requires shaped { HasShapeOf J.Rules joint.now order.old }
    requires kept { (gone : ℕ → Bool) × HasKept (J.lanes joint.now) gone order.old }
    ensures rest { order.new ≡ record order.old { list = order.new.list; marks = order.new.marks } }
    ensures unmarked { let A = J.arena joint.now in
        (p : ℕ) → p < length A.nodes → is_marked order.new (p / J.lanes joint.now / J.band joint.now) ≡ false }
    ensures adds { let A = J.arena joint.now in (gone : ℕ → Bool) → HasKept (J.lanes joint.now) gone order.old →
        AddsTo A gone (λ p. IsTrue (falls A gone p) ×
        (is_marked order.old (p / J.lanes joint.now / J.band joint.now) ≡ true)) order.old.list order.new.list }
    ensures done { let A = J.arena joint.now in
        (gone : ℕ → Bool) (p : ℕ) → HasKept (J.lanes joint.now) gone order.old → p < length A.nodes →
        is_marked order.old (p / J.lanes joint.now / J.band joint.now) ≡ true → IsJudged A gone order.new.list p }
{
    joint.known(); // a row has 1 to 64 lanes, a band has 1 to 64 rows
    let bands = joint.bands();
    let mut words = [0; BAND];
    let left = &mut words[..joint.band() as usize];
    'bands: while let Some(y) = order.next_marked(bands) {
        judge(joint, order, y, y < bands, left);
    }
}

/// Judges the band `y` if `is_band` is true: lists each of its pairs at which some action is a reason
/// for removal, with the least such action.
#[tactic(auto, using(crate::proofs::Bands::band_begins))]
fn judge<J: Rules>(joint: &J, order: &mut Order, y: u32, is_band: bool, left: &mut [u64])
    requires shaped { HasShapeOf J.Rules joint.now order.old }
    requires kept { (gone : ℕ → Bool) × HasKept (J.lanes joint.now) gone order.old }
    requires left { length left.old ≡ J.band joint.now }
    requires band { is_band ≡ true → y * J.band joint.now + J.band joint.now ≤ order.old.rows }
    ensures rest { ChangesOnlyList order.old order.new }
    ensures long { length left.new ≡ length left.old }
    ensures adds { let A = J.arena joint.now in (gone : ℕ → Bool) → HasKept (J.lanes joint.now) gone order.old →
        AddsTo A gone (λ p. IsTrue (falls A gone p) × (p / J.lanes joint.now / J.band joint.now ≡ y))
        order.old.list order.new.list }
    ensures done { let A = J.arena joint.now in
        (gone : ℕ → Bool) (i lane : ℕ) → HasKept (J.lanes joint.now) gone order.old →
        is_band ≡ true → i < J.band joint.now → lane < J.lanes joint.now →
        IsJudged A gone order.new.list ((y * J.band joint.now + i) * J.lanes joint.now + lane) }
{
    if !is_band {
        return;
    }
    joint.known(); // a pair's number fits in 32 bits, a row has 1 to 64 lanes
    order.known(); // a row has 1 to 64 lanes
    let x = band_start(joint, order, y);
    if are_listed(joint, order, x) {
        return;
    }
    let row = joint.first_row(y);
    let allowed = joint.row_actions(&row);
    for a in 0..joint.actions() {
        if !is_in(allowed, a) {
            continue;
        }
        judge_on(joint, order, &row, x, a, left);
    }
}

// Returns whether the action `a` is in a set.
#[tactic(auto, using(std::proofs::lemmas::Nat::Bits::shr_and_one), unfolding(roman_lanes::specs::Rows::is_on))]
fn is_in(actions: u32, a: u8) -> bool
    requires { a < 32 }
    ensures { result ≡ is_on actions a }
{
    (actions >> a) & 1 == 1
}

/// Judges the band whose first row is `x` for the action `a`: lists the pairs that it loses for it.
fn judge_on<J: Rules>(joint: &J, order: &mut Order, row: &J::Row, x: u32, a: u8, left: &mut [u64])
    requires shaped { HasShapeOf J.Rules joint.now order.old }
    requires kept { (gone : ℕ → Bool) × HasKept (J.lanes joint.now) gone order.old }
    requires first { (y : ℕ) × (x ≡ y * J.band joint.now) }
    requires band { x + J.band joint.now ≤ order.old.rows }
    requires row { J.is_row joint.now x row.now }
    requires action { a < (J.arena joint.now).actions }
    requires left { length left.old ≡ J.band joint.now }
    ensures rest { ChangesOnlyList order.old order.new }
    ensures long { length left.new ≡ length left.old }
    ensures adds { let A = J.arena joint.now in (gone : ℕ → Bool) → HasKept (J.lanes joint.now) gone order.old →
        AddsLost A gone (J.lanes joint.now) x (J.band joint.now) (Reason.Act a) order.old.list order.new.list }
{
    joint.known(); // a row has 1 to 64 lanes, a pair's number fits in 32 bits
    order.known(); // each row has a kept word
    copy_rows(order.words(), x, left);
    joint.unserved_band(row, order.before(), a, left);
    push_lost(joint, order, x, left, Reason::Act(a));
}
