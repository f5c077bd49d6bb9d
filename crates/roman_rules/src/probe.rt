//! Reasons of a list's entries, probed row by row.
ghost use Rattle.std.specs.Prelude.{◌≡◌, ℕ, ◌+◌, ◌*◌, ◌<◌, Bool, true, length, count_by, IsTrue};
ghost use Rattle.roman_model.specs.Lists.{below};
ghost use Rattle.roman_model.specs.Arena.{Arena, is_justified};
ghost use Rattle.roman_lanes.specs.Rows.{is_on};
ghost use Rattle.roman_rules.specs.Alive.{AreAliveRows, HasAllRows};
ghost use Rattle.roman_rules.specs.Probes.{AreJustified, HoldsWhereKnown, IsReasonOf, readings_of, readings_of_reason};

use crate::rules::Rules;
use roman_io::Steps;
use roman_model::Reason;
use std::sync::ledger::Ledger;

/// A row that was probed for a reason, and its pairs at which the reason is known to hold.
///
/// Neighbouring entries of a list mostly lie in one row and have one reason. The row is probed
/// once, and the answer serves all of them. A reason that holds still holds after more pairs are
/// gone, so a known answer remains correct while the list grows. A pair at which the reason didn't
/// hold is probed again.
#[derive(Clone, Copy, Debug)]
pub struct RowProbe {
    /// The number of the row that was probed.
    pub row: u32,
    /// The reason for which the row was probed.
    pub reason: Reason,
    /// The lanes of the pairs at which the reason is known to hold, one bit each.
    pub lanes: u64,
}

/// Counts a step for each ready seat.
pub fn tick_ready<J: Rules, L: Ledger>(joint: &J, steps: &mut Steps<L>)
    ensures { let A = J.arena joint.now in steps.new ≡ steps.old + count_by A.ready (below A.seats) }
{
    for k in 0..joint.seats() {
        if joint.is_ready(k) {
            steps.tick();
        }
    }
}

/// Returns the pairs of a row at which the action `a` is allowed and no seat serves it. Counts a
/// step for each ready seat if the action is allowed, and otherwise none.
#[tactic(auto, using(crate::proofs::ProbeLemmas::probing), unfolding(crate::specs::Probes::readings_of))]
fn probe_seats<J: Rules, L: Ledger>(
    joint: &J,
    row: &J::Row,
    words: &[u64],
    a: u8,
    steps: &mut Steps<L>,
) -> u64
    requires row { (x : ℕ) × J.is_row joint.now x row.now }
    requires action { a < (J.arena joint.now).actions }
    requires room { HasAllRows (J.arena joint.now) (J.lanes joint.now) words.now }
    ensures lost { let A = J.arena joint.now in let lanes = J.lanes joint.now in
        (x : ℕ) (gone : ℕ → Bool) → J.is_row joint.now x row.now → AreAliveRows lanes gone words.now →
        AreJustified A lanes gone x (Reason.Act a) result }
    ensures cost { let A = J.arena joint.now in let lanes = J.lanes joint.now in
        (x lane : ℕ) → J.is_row joint.now x row.now → lane < lanes →
        steps.new ≡ steps.old + readings_of A (x * lanes + lane) a }
{
    joint.known(); // there are at most 32 actions
    if (joint.row_actions(row) >> a) & 1 == 0 {
        return 0;
    }
    tick_ready(joint, steps);
    joint.unserved(row, words, a, u64::MAX >> (64 - joint.lanes()))
}

impl RowProbe {
    /// Returns a `RowProbe` with no known lanes.
    #[tactic(auto, using(std::proofs::lemmas::Bool::both_ways, roman_lanes::proofs::CallerLemmas::on_zero))]
    pub fn nothing() -> RowProbe
        ensures { (A : Arena ℕ) (lanes : ℕ) (gone : ℕ → Bool) → HoldsWhereKnown A lanes gone result }
    {
        RowProbe {
            row: 0,
            reason: Reason::Final,
            lanes: 0,
        }
    }

    /// Returns the lanes of the row `x` at which the reason is known to hold. Returns no lane if
    /// the last probe was for another row or another reason.
    #[tactic(auto, using(std::proofs::lemmas::Bool::both_ways, roman_lanes::proofs::CallerLemmas::on_zero))]
    pub fn known_at(&self, x: u32, reason: Reason) -> u64
        ensures { (A : Arena ℕ) (lanes : ℕ) (gone : ℕ → Bool) → HoldsWhereKnown A lanes gone self.now →
            (lane : ℕ) → lane < lanes → is_on result lane ≡ true →
            IsTrue (is_justified A gone (x * lanes + lane) reason) }
    {
        if self.row == x && self.reason == reason {
            return self.lanes;
        }
        0
    }

    /// Probes the row `x` for a reason. Remembers the lanes at which it holds, and returns them.
    /// `words` has, row by row, the bits of the pairs that aren't gone. Requires that the reason's
    /// action, if any, is an action of the system.
    ///
    /// Counts a step for each ready seat if the reason is an action that is allowed in the row, and
    /// otherwise none.
    pub fn probe_row<J: Rules, L: Ledger>(
        &mut self,
        joint: &J,
        words: &[u64],
        x: u32,
        reason: Reason,
        steps: &mut Steps<L>,
    ) -> u64
        requires row { x * J.lanes joint.now < length (J.arena joint.now).nodes }
        requires reason { IsReasonOf (J.arena joint.now) reason }
        requires room { HasAllRows (J.arena joint.now) (J.lanes joint.now) words.now }
        ensures holds { (gone : ℕ → Bool) → AreAliveRows (J.lanes joint.now) gone words.now →
            AreJustified (J.arena joint.now) (J.lanes joint.now) gone x reason result }
        ensures known { (gone : ℕ → Bool) → AreAliveRows (J.lanes joint.now) gone words.now →
            HoldsWhereKnown (J.arena joint.now) (J.lanes joint.now) gone self.new }
        ensures row { self.new.row ≡ x }
        ensures cost { (lane : ℕ) → lane < J.lanes joint.now →
            steps.new ≡ steps.old + readings_of_reason (J.arena joint.now) (x * J.lanes joint.now + lane) reason }
    {
        let row = joint.row(x);
        let lanes = match reason {
            Reason::Final => joint.unfine(&row),
            Reason::Act(a) => probe_seats(joint, &row, words, a, steps),
        };
        *self = RowProbe {
            row: x,
            reason,
            lanes,
        };
        lanes
    }
}
