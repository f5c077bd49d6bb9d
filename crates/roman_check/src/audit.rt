//! Judges each line of a certificate by the lines read before it.
ghost use Rattle.std.specs.Prelude.{◌≡◌, ℕ, ◌*◌, ◌<◌, false, not, IsTrue, List, [], None, Some, length, IfOk, IfSome, if◌then◌else◌};
ghost use Rattle.roman_model.specs.Arena.{Arena, Entry, is_listed};
ghost use Rattle.roman_check.specs.Audits.{Fits, IsInBody, IsEntryIn, IsFront, AnswersAt, CanProbeAt, HasListed, Judges, HasTaken};

use crate::entries::{entry, is_count, is_end, is_head};
use crate::missing::first_missing;
use crate::remaining::{has_lane, lane_from};
use crate::table::Remaining;
use crate::verdict::Why;
use roman_io::Steps;
use roman_model::Reason;
use roman_rules::{RowProbe, Rules};
use std::alloc::{AllocError, Global};
use std::sync::ledger::Ledger;

/// The line that is due next in a certificate.
#[derive(Clone, Copy)]
pub(crate) enum Due {
    /// The line that names the format.
    Head,
    /// The number of pairs.
    Count,
    /// An entry, or the line `end`.
    Body,
    /// No line: the line `end` was read.
    Nothing,
}

/// The row that was probed last.
#[derive(Clone, Copy)]
pub(crate) struct Front {
    pub(crate) row: u32,
    // the number of its first pair, and the number of its pairs
    pub(crate) first: u64,
    pub(crate) lanes: u32,
    // the lanes at which the reason is known to hold
    pub(crate) known: u64,
}

/// The state of a check after the lines read so far.
#[derive(Drop)]
pub(crate) struct Audit {
    pub(crate) due: Due,
    // the pairs that no entry names
    pub(crate) left: Remaining,
    // the result of the last probe of a row for an entry's reason
    pub(crate) probe: RowProbe,
}

/// Probes a row: finds whether a reason holds at one of its lanes, when the pairs `left` remain.
/// `place` is the row and the lane.
#[cold]
#[inline(never)]
fn probe_row<J: Rules, L: Ledger>(
    probe: &mut RowProbe,
    joint: &J,
    left: &Remaining,
    place: (u32, u32),
    reason: Reason,
    steps: &mut Steps<L>,
) -> bool
    requires { CanProbeAt (J.arena joint.now) (J.lanes joint.now) left.now place reason }
    ensures { AnswersAt (J.arena joint.now) left.now place reason probe.old probe.new result }
{
    let (row, lane) = place;
    has_lane(
        probe.probe_row(joint, left.words(), row, reason, steps),
        lane,
    )
}

/// Returns whether a reason holds at a pair, when the pairs `left` remain. `place` is the row and
/// the lane of the pair. Probes no row if the result is known.
#[inline(always)]
fn holds<J: Rules, L: Ledger>(
    probe: &mut RowProbe,
    joint: &J,
    left: &Remaining,
    place: (u32, u32),
    reason: Reason,
    steps: &mut Steps<L>,
) -> bool
    requires { CanProbeAt (J.arena joint.now) (J.lanes joint.now) left.now place reason }
    ensures { AnswersAt (J.arena joint.now) left.now place reason probe.old probe.new result }
{
    let (row, lane) = place;
    if row == probe.row && reason == probe.reason && has_lane(probe.lanes, lane) {
        return true;
    }
    probe_row(probe, joint, left, place, reason, steps)
}

impl Audit {
    /// Begins an audit, before the first line. Fails only when out of memory.
    pub(crate) fn build<J: Rules>(alloc: Global, joint: &J) -> Result<Audit, AllocError>
        ensures due { IfOk result (λ audit. audit.due ≡ Due.Head) }
        ensures list { IfOk result (λ audit. HasListed (J.arena joint.now) [] audit.left audit.probe) }
        ensures shaped { IfOk result (Fits J.Rules joint.now) }
    {
        Ok(Audit {
            due: Due::Head,
            left: Remaining::build(alloc, joint.rows(), joint.lanes(), joint.pairs())?,
            probe: RowProbe::nothing(),
        })
    }

    /// Judges one of the first two lines. If it isn't the line that is due, returns the fault
    /// `Form`. Otherwise makes `next` due.
    fn judge_opening(&mut self, is_due: bool, next: Due) -> Option<Why>
        ensures fault { result ≡ (if is_due then None else Some Why.Form) }
        ensures read { result ≡ None → self.new.due ≡ next }
        ensures rest { self.new ≡ record self.old { due = self.new.due } }
    {
        if !is_due {
            return Some(Why::Form);
        }
        self.due = next;
        None
    }

    /// Judges the entry of a pair and a reason. If it has no fault, removes the pair from `left`.
    /// Otherwise returns the fault.
    #[inline(always)]
    #[tactic(auto, using(crate::proofs::AuditLemmas::pair_within))]
    pub(crate) fn take_entry<J: Rules, L: Ledger>(
        &mut self,
        joint: &J,
        pair: u32,
        reason: Reason,
        steps: &mut Steps<L>,
    ) -> Option<Why>
        requires ready { IsInBody J.Rules joint.now self.old }
        requires entry { IsEntryIn (J.arena joint.now) (pair, reason) }
        ensures { HasTaken J.Rules joint.now self.old self.new (pair, reason) result }
    {
        joint.known(); // no two pairs have the same number
        let (row, lane) = self.left.place(self.probe.row, pair);
        if !self.left.has(row, lane) {
            return Some(Why::Repeated);
        }
        let (left, place) = (&self.left, (row, lane));
        if !holds(&mut self.probe, joint, left, place, reason, steps) {
            return Some(Why::Unjustified);
        }
        self.left.remove(row, lane);
        None
    }

    /// Returns the row that was probed last, or `None` if the table has no such row.
    pub(crate) fn front(&self) -> Option<Front>
        ensures { IfSome result (IsFront self.now) }
    {
        let (row, lanes) = (self.probe.row, self.left.lanes);
        if row as usize >= self.left.words().len() {
            return None;
        }
        Some(Front {
            row,
            first: u64::from(row) * u64::from(lanes),
            lanes,
            known: self.probe.lanes,
        })
    }

    /// Removes a pair that remains, if it lies in the row that was probed last and the reason of
    /// that probe is known to hold there. Returns whether it did, and changes nothing otherwise.
    #[inline(always)]
    pub(crate) fn take_known<J: Rules>(&mut self, joint: &J, front: Front, pair: u64) -> bool
        requires ready { IsInBody J.Rules joint.now self.old }
        requires front { IsFront self.old front }
        ensures taken { IsTrue result →
            HasTaken J.Rules joint.now self.old self.new (pair, self.old.probe.reason) None }
        ensures untaken { result ≡ false → self.new ≡ self.old }
        ensures probe { self.new.probe ≡ self.old.probe }
    {
        joint.known(); // no two pairs have the same number
        let Some(lane) = lane_from(front.first, front.lanes, pair) else {
            return false;
        };
        if !self.left.has_known(front.row, lane, front.known) {
            return false;
        }
        self.left.remove(front.row, lane);
        true
    }

    /// Judges a line after the first two: an entry, or the line `end`.
    fn judge_body<J: Rules, L: Ledger>(
        &mut self,
        joint: &J,
        line: &[u8],
        steps: &mut Steps<L>,
    ) -> Option<Why>
        requires ready { IsInBody J.Rules joint.now self.old }
        ensures judged { Judges (J.arena joint.now) self.old self.new line.now result }
        ensures shaped { Fits J.Rules joint.now self.new }
    {
        joint.known(); // a pair's number fits in 32 bits
        if !is_end(line) {
            return match entry(line, joint.pairs(), joint.actions()) {
                Some((pair, reason)) => self.take_entry(joint, pair, reason, steps),
                None => Some(Why::Form),
            };
        }
        self.due = Due::Nothing;
        match first_missing(joint, self.left.words()) {
            Some(pair) => Some(Why::Unlisted(pair)),
            None => None,
        }
    }

    /// Judges the next line. If it has no fault, adds it to the lines read. Otherwise returns the
    /// fault.
    #[tactic(auto, using(crate::proofs::AuditLemmas::judged_head, crate::proofs::AuditLemmas::judged_count, crate::proofs::AuditLemmas::judged_after_end))]
    pub(crate) fn judge<J: Rules, L: Ledger>(
        &mut self,
        joint: &J,
        line: &[u8],
        steps: &mut Steps<L>,
    ) -> Option<Why>
        requires shaped { Fits J.Rules joint.now self.old }
        ensures judged { Judges (J.arena joint.now) self.old self.new line.now result }
        ensures shaped { Fits J.Rules joint.now self.new }
    {
        match self.due {
            Due::Head => self.judge_opening(is_head(line), Due::Count),
            Due::Count => self.judge_opening(is_count(line, joint.pairs()), Due::Body),
            Due::Body => self.judge_body(joint, line, steps),
            Due::Nothing => Some(Why::Form),
        }
    }

    /// Returns whether no entry read so far names the pair `p`.
    pub(crate) fn is_left(&self, p: u32) -> bool
        requires { p < length self.now.left.words.items * self.now.left.lanes }
        ensures { (A : Arena ℕ) (L : List (Entry ℕ)) → HasListed A L self.now.left self.now.probe →
            result ≡ not (is_listed A L p) }
    {
        let (row, lane) = self.left.place(self.probe.row, p);
        self.left.has(row, lane)
    }
}
