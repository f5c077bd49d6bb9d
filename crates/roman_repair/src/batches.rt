//! Replays batches. A batch has waiting entries of one row with one reason. An entry is kept if the
//! entries kept before it justify it.
ghost use Rattle.roman_order.specs.Batches.{entries_at};
ghost use Rattle.roman_order.specs.Board.{ChangesOnlyList};
ghost use Rattle.roman_repair.specs.Judging.{CanReplayLanes, HasJudgedFront, ReplaysAll};

use crate::band_probe::BandProbe;
use crate::lanes::first_alike;
use roman_io::Steps;
use roman_order::{Batch, Order};
use roman_rules::Rules;
use std::sync::ledger::Ledger;

/// Judges the first entries of the batch with equal results, and returns the remaining lanes. If
/// the first entry is known to be justified, lists all of them. Otherwise probes the row, and lists
/// or drops those with the result of the first. Probes one seat alone while only that seat can keep
/// an entry from being justified. Once an entry is dropped, all seats must be probed.
fn keep_front<J: Rules, L: Ledger>(
    joint: &J,
    order: &mut Order,
    probe: &mut BandProbe,
    batch: Batch,
    steps: &mut Steps<L>,
) -> u64
    requires { CanReplayLanes J.Rules joint.now order.old probe.old batch }
    ensures { HasJudgedFront (J.arena joint.now)
        (J.lanes joint.now) batch result order.old order.new probe.old probe.new steps.old steps.new }
{
    joint.known(); // allowed actions are actions of the system, a row has 1 to 64 lanes
    order.known(); // a row has 1 to 64 lanes
    let known = probe.known_at(batch.row, batch.reason);
    let (front, rest, holds) = first_alike(batch.lanes, known);
    if holds {
        order.push_lanes(batch.row, front, batch.reason);
        return rest;
    }
    let held = probe.probe_batch(joint, order.words(), batch, steps);
    let (front, rest, holds) = first_alike(batch.lanes, held);
    if holds {
        order.push_lanes(batch.row, front, batch.reason);
        return rest;
    }
    probe.probe_all();
    rest
}

/// Replays the entries of the batch, in rising order of the lanes, and appends those that it keeps
/// to the list. The result of a probe stays valid, so one probe of the row serves several entries.
/// The number of steps is at most the number of readings of all the entries.
pub(crate) fn keep_lanes<J: Rules, L: Ledger>(
    joint: &J,
    order: &mut Order,
    probe: &mut BandProbe,
    batch: Batch,
    steps: &mut Steps<L>,
)
    requires { CanReplayLanes J.Rules joint.now order.old probe.old batch }
    ensures replayed { ReplaysAll J.Rules joint.now (entries_at (J.lanes joint.now) batch)
        order.old order.new probe.old probe.new steps.old steps.new }
    ensures rest { ChangesOnlyList order.old order.new }
{
    let mut left = batch.lanes;
    'left: while left != 0 {
        let rest = Batch {
            lanes: left,
            ..batch
        };
        left = keep_front(joint, order, probe, rest, steps);
    }
}
