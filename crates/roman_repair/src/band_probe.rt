//! Bands of rows that are probed for a reason.
ghost use Rattle.std.specs.Prelude.{◌≡◌, ℕ, ◌+◌, ◌*◌, ◌/◌, ◌<◌, Bool, not, length, None, Some, slice_index, IsTrue};
ghost use Rattle.roman_model.specs.Arena.{Arena};
ghost use Rattle.roman_lanes.specs.Rows.{is_on, AreRows};
ghost use Rattle.roman_rules.specs.Probes.{IsReasonOf};
ghost use Rattle.roman_repair.specs.Alone.{IsSeatOf, passes, probes_of};
ghost use Rattle.roman_repair.specs.BandProbes.{HoldsInBand, IsKnown, CanProbe, HasProbed, HasServed};
ghost use Rattle.roman_repair.specs.Replays.{is_possible};

use roman_io::Steps;
use roman_model::Reason;
use roman_order::Batch;
use roman_rules::{BAND, RowProbe, Rules, tick_ready};
use std::sync::ledger::Ledger;

/// The row that was probed last for a reason, the band of rows that was probed last, and the pairs
/// of both at which the reason is known to hold.
///
/// Neighbouring batches mostly lie in one band and have one reason. The first of their rows is
/// probed by itself, and the second with the whole band, so that one probe serves the others. A
/// reason that is known to hold continues to hold while more pairs are gone. A pair at which the
/// reason didn't hold is probed again, in its row alone.
#[derive(Clone, Copy)]
pub(crate) struct BandProbe {
    /// The seat that is probed alone. `None` if all seats are probed.
    pub(crate) alone: Option<u8>,
    /// The row that was probed by itself last.
    row: RowProbe,
    /// The first row of the band that was probed last.
    first: u32,
    /// The number of rows of that band, or 0 if no band was probed yet.
    rows: u32,
    /// The reason for which the band was probed.
    reason: Reason,
    /// For each row of the band, the lanes of the pairs at which the reason is known to hold. Words past
    /// the band have no meaning.
    words: [u64; BAND],
}

/// Probes all rows of the band `y` for a reason: the seat `alone`, or all seats if it is `None`.
/// Sets for each row the lanes at which they let it hold. `words` has the bits of the pairs that
/// aren't gone. If the reason is an action, counts a step for each seat that is probed.
fn probe_band<J: Rules, L: Ledger>(
    joint: &J,
    words: &[u64],
    y: u32,
    reason: Reason,
    alone: Option<u8>,
    held: &mut [u64],
    steps: &mut Steps<L>,
)
    requires band { y * J.band joint.now * J.lanes joint.now < length (J.arena joint.now).nodes }
    requires reason { IsReasonOf (J.arena joint.now) reason }
    requires seat { IsSeatOf (J.arena joint.now) alone }
    requires room { length words.now * J.lanes joint.now ≡ length (J.arena joint.now).nodes }
    requires long { length held.old ≡ J.band joint.now }
    ensures long { length held.new ≡ J.band joint.now }
    ensures passes { let A = J.arena joint.now in let lanes = J.lanes joint.now in
        (gone : ℕ → Bool) → AreRows lanes (λ q. not (gone q)) words.now →
        (i lane : ℕ) → i < J.band joint.now → lane < lanes →
        is_on (slice_index held.new i) lane ≡ passes A gone alone ((y * J.band joint.now + i) * lanes + lane) reason }
    ensures cost { let A = J.arena joint.now in
        (p : ℕ) → IsTrue (is_possible A p reason) → steps.new ≡ steps.old + probes_of A alone p reason }
{
    joint.known(); // a row has 1 to 64 lanes
    held.fill(u64::MAX >> (64 - joint.lanes()));
    let row = joint.first_row(y);
    match reason {
        Reason::Final => match alone {
            None => joint.unfine_band(&row, joint.resting(), held),
            Some(_) => {}
        },
        Reason::Act(a) => match alone {
            None => {
                tick_ready(joint, steps);
                joint.unserved_band(&row, words, a, held);
            }
            Some(k) => {
                steps.tick();
                joint.clear_good(&row, words, a, k, held);
            }
        },
    }
}

/// Returns the lanes of the batch's row at which the seat `k` keeps its reason from holding. Counts
/// a step if the reason is an action.
fn probe_row_alone<J: Rules, L: Ledger>(
    joint: &J,
    words: &[u64],
    batch: Batch,
    k: u8,
    steps: &mut Steps<L>,
) -> u64
    requires { CanProbe (J.arena joint.now) (J.lanes joint.now) (Some k) words.now batch }
    ensures served { HasServed J.Rules joint.now words.now k batch result }
    ensures cost { (p : ℕ) → steps.new ≡ steps.old + probes_of (J.arena joint.now) (Some k) p batch.reason }
{
    match batch.reason {
        Reason::Final => 0,
        Reason::Act(a) => {
            steps.tick();
            let row = joint.row(batch.row);
            joint.good(&row, words, a, k)
        }
    }
}

impl BandProbe {
    /// Returns a row and a band without results of probes.
    pub(crate) fn nothing(alone: Option<u8>) -> BandProbe
        ensures alone { result.alone ≡ alone }
        ensures known { (A : Arena ℕ) (lanes : ℕ) (gone : ℕ → Bool) → HoldsInBand A lanes gone result }
    {
        BandProbe {
            alone,
            row: RowProbe {
                row: 0,
                reason: Reason::Final,
                lanes: 0,
            },
            first: 0,
            rows: 0,
            reason: Reason::Final,
            words: [0; BAND],
        }
    }

    /// Makes later probes probe all seats. Forgets the results of the seat that was probed alone.
    pub(crate) fn probe_all(&mut self)
        ensures alone { self.new.alone ≡ None }
        ensures known { (A : Arena ℕ) (lanes : ℕ) (gone : ℕ → Bool) → HoldsInBand A lanes gone self.old →
            HoldsInBand A lanes gone self.new }
    {
        if self.alone.is_some() {
            *self = BandProbe::nothing(None);
        }
    }

    /// Returns the lanes of the row `x` at which the reason is known to hold. There are none if
    /// neither the row nor its band was probed last for this reason.
    #[tactic(auto, using(crate::proofs::BandAnswers::none_known))]
    pub(crate) fn known_at(&self, x: u32, reason: Reason) -> u64
        ensures { (A : Arena ℕ) (lanes : ℕ) (gone : ℕ → Bool) → HoldsInBand A lanes gone self.now →
            IsKnown A lanes gone self.now.alone x reason result }
    {
        if self.row.row == x && self.row.reason == reason && self.row.lanes != 0 {
            return self.row.lanes;
        }
        if x < self.first || self.reason != reason {
            return 0;
        }
        let i = x - self.first;
        if i < self.rows && i < BAND as u32 {
            self.words[i as usize]
        } else {
            0
        }
    }

    /// Probes all rows of the band of the batch's row. Returns the lanes of the row at which the reason passes.
    fn probe_whole<J: Rules, L: Ledger>(
        &mut self,
        joint: &J,
        words: &[u64],
        batch: Batch,
        steps: &mut Steps<L>,
    ) -> u64
        requires { CanProbe (J.arena joint.now) (J.lanes joint.now) self.old.alone words.now batch }
        ensures { HasProbed (J.arena joint.now)
            (J.lanes joint.now) words.now batch self.old self.new result steps.old steps.new }
    {
        joint.known(); // a band has 1 to 64 rows
        let band = joint.band();
        self.first = batch.row - batch.row % band;
        self.rows = band;
        self.reason = batch.reason;
        let alone = self.alone;
        let held = &mut self.words[..band as usize];
        probe_band(
            joint,
            words,
            batch.row / band,
            batch.reason,
            alone,
            held,
            steps,
        );
        self.words[(batch.row % band) as usize]
    }

    /// Returns whether to probe the whole band of the row `x`: another of its rows was probed for
    /// the reason just before, and the band wasn't.
    fn is_band_due<J: Rules>(&self, joint: &J, x: u32, reason: Reason) -> bool {
        let band = joint.band();
        if band == 1 || self.row.row == x || self.row.reason != reason {
            return false;
        }
        let first = x - x % band;
        let is_second = first <= self.row.row && self.row.row - first < band;
        is_second && (self.first != first || self.reason != reason)
    }

    /// Probes the batch's row for its reason, together with the whole band if another of its rows
    /// was probed just before. Returns the lanes of the row at which the seats that are probed let
    /// the reason hold. `words` has the bits of the pairs that aren't gone. The action of the
    /// reason, if it has one, must be one of the system.
    ///
    /// If the reason is an action that is allowed in the row, counts a step for each seat that is
    /// probed.
    pub(crate) fn probe_batch<J: Rules, L: Ledger>(
        &mut self,
        joint: &J,
        words: &[u64],
        batch: Batch,
        steps: &mut Steps<L>,
    ) -> u64
        requires { CanProbe (J.arena joint.now) (J.lanes joint.now) self.old.alone words.now batch }
        ensures { HasProbed (J.arena joint.now)
            (J.lanes joint.now) words.now batch self.old self.new result steps.old steps.new }
    {
        joint.known(); // a row has 1 to 64 lanes
        if self.is_band_due(joint, batch.row, batch.reason) {
            return self.probe_whole(joint, words, batch, steps);
        }
        match self.alone {
            None => self
                .row
                .probe_row(joint, words, batch.row, batch.reason, steps),
            Some(k) => {
                self.row = RowProbe {
                    row: batch.row,
                    reason: batch.reason,
                    lanes: 0,
                };
                !probe_row_alone(joint, words, batch, k, steps)
            }
        }
    }
}
