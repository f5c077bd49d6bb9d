//! Marks the bands that lead to the pairs that a round has listed.
ghost use Rattle.std.specs.Prelude.{◌≡◌, ◌≢◌, ℕ, ◌+◌, ◌*◌, ◌/◌, ◌<◌, ◌≤◌, Bool, true, false, length, take, drop, IsTrue, IsFalse};
ghost use Rattle.roman_lanes.specs.Rows.{is_on};
ghost use Rattle.roman_model.specs.Arena.{is_listed, fall};
ghost use Rattle.roman_model.specs.Lists.{IsIn};
ghost use Rattle.roman_order.specs.Board.{is_marked};
ghost use Rattle.roman_order.specs.Batches.{IsBatch, entries_at};
ghost use Rattle.roman_order.specs.ReadAhead.{AreUnkept};
ghost use Rattle.roman_relation.specs.Shaped.{HasShapeOf};
ghost use Rattle.roman_relation.specs.Rounds.{AreUnlisted, AreNoted, moves_noted, moves_to_all};

use roman_io::Steps;
use roman_order::{Batch, Order};
use roman_rules::Rules;
use std::sync::ledger::Ledger;

/// Marks the bands that lead to the pairs of the entries from `start` on, and stores the words of
/// these pairs' bands as kept words. If `near` is the number of batches before `start`, the first
/// batch is found at once.
pub(crate) fn mark_losses<J: Rules, L: Ledger>(
    joint: &J,
    order: &mut Order,
    start: u32,
    near: usize,
    steps: &mut Steps<L>,
)
    requires shaped { HasShapeOf J.Rules joint.now order.old }
    requires begun { start ≤ length order.old.list }
    requires kept { AreUnlisted (J.arena joint.now) (J.lanes joint.now) (take start order.old.list) order.old.before }
    ensures kept { AreUnlisted (J.arena joint.now) (J.lanes joint.now) order.new.list order.new.before }
    ensures marked { let A = J.arena joint.now in
        (p q a k : ℕ) → p < length A.nodes → IsIn q (A.outcomes p a k) → IsTrue (is_listed A order.new.list q) →
        IsFalse (is_listed A (take start order.new.list) q) →
        is_marked order.new (p / J.lanes joint.now / J.band joint.now) ≡ true }
    ensures rest { order.new ≡ record order.old { marks = order.new.marks; before = order.new.before } }
    ensures cost { steps.new ≤ steps.old + fall (J.arena joint.now) (drop start order.new.list) }
    ensures steps { steps.new ≡ steps.old + moves_to_all (J.arena joint.now) (J.lanes joint.now) (J.band joint.now)
        (J.mid joint.now) order.old.rows (drop start order.new.list) }
{
    joint.known(); // a row has 1 to 64 lanes, no two pairs have the same number
    order.known(); // listed pairs are pairs of the system
    let end = order.len();
    let mut guess = near;
    let mut i = start;
    'losses: while i < end {
        let batch = order.batch_at(i, guess);
        mark_batch(joint, order, batch, steps);
        let (next, near) = next_loss(joint, order, i + batch.len(), guess.wrapping_add(1));
        i = next;
        guess = near;
    }
    order.known(); // each row has a kept word
}

/// Passes over the entries from place `i` of the list on whose bands are noted. Returns the place
/// after them, and a guess of its batch. `near` is a guess of the batch of place `i`. If a band has
/// one row, passes over no entry, because such a band has few batches in a round.
fn next_loss<J: Rules>(joint: &J, order: &Order, i: u32, near: usize) -> (u32, usize)
    requires { i ≤ length order.now.list }
    ensures { AreUnkept order.now i result.0 }
{
    if joint.band() == 1 {
        return (i, near);
    }
    order.past_unkept(i, near)
}

/// Marks the bands that lead to the band of a batch, and stores the words of the batch's band as
/// kept words. Does nothing if the kept word of the batch's row has none of the batch's lanes.
fn mark_batch<J: Rules, L: Ledger>(joint: &J, order: &mut Order, batch: Batch, steps: &mut Steps<L>)
    requires shaped { HasShapeOf J.Rules joint.now order.old }
    requires row { batch.row < order.old.rows }
    requires batch { IsBatch (J.lanes joint.now) batch }
    requires listed { (lane : ℕ) → is_on batch.lanes lane ≡ true →
        IsTrue (is_listed (J.arena joint.now) order.old.list (batch.row * J.lanes joint.now + lane)) }
    ensures rest { order.new ≡ record order.old { marks = order.new.marks; before = order.new.before } }
    ensures cost { steps.new ≤ steps.old + fall (J.arena joint.now) (entries_at (J.lanes joint.now) batch) }
    ensures noted { let A = J.arena joint.now in let lanes = J.lanes joint.now in let band = J.band joint.now in
        let y = batch.row / band in
        (start : ℕ) (noted more : ℕ → Bool) → AreNoted A lanes band start noted order.old →
        ((lane : ℕ) → is_on batch.lanes lane ≡ true →
        IsFalse (is_listed A (take start order.old.list) (batch.row * lanes + lane))) →
        more y ≡ true → ((z : ℕ) → z ≢ y → more z ≡ noted z) → AreNoted A lanes band start more order.new
        × (steps.new + moves_noted A lanes band (J.mid joint.now) order.old.rows noted
        ≡ steps.old + moves_noted A lanes band (J.mid joint.now) order.old.rows more) }
{
    joint.known(); // a row has 1 to 64 lanes, a band has 1 to 64 rows
    order.known(); // each row has a kept word
    let before = order.before()[batch.row as usize];
    if !meets(before, batch.lanes) {
        return;
    }
    let band = joint.band();
    let y = batch.row / band;
    let row = joint.first_row(y);
    joint.mark_before(&row, order.marks_mut(), steps);
    order.keep_rows(y * band, band);
}

// Returns whether a word has some lane of another.
#[tactic(auto, using(roman_order::proofs::CallerLemmas::apart_words, std::proofs::lemmas::Bool::both_ways, crate::proofs::Losses::meeting_words))]
fn meets(word: u64, other: u64) -> bool
    ensures none { result ≡ false → (lane : ℕ) → is_on other lane ≡ true → is_on word lane ≡ false }
    ensures some { result ≡ true → (lane : ℕ) × (is_on word lane ≡ true) × (is_on other lane ≡ true) }
{
    word & other != 0
}
