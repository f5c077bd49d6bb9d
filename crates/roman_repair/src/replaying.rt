//! Replays the waiting entries, each for the pairs for which it stands.
ghost use Rattle.roman_order.specs.Board.{ChangesOnlyList};
ghost use Rattle.roman_repair.specs.Judging.{ReplaysAll};
ghost use Rattle.roman_repair.specs.Growing.{CanGrow, CanReplayAll, CanReplayGrown, HasReplayedAll, IsGrown, entries_grown};
ghost use Rattle.roman_repair.specs.Replays.{candidates};

use crate::band_probe::BandProbe;
use crate::batches::keep_lanes;
use crate::lanes::{first_group, spread_lanes};
use roman_io::Steps;
use roman_order::{Batch, Order};
use roman_rules::Rules;
use std::sync::ledger::Ledger;

/// A service that takes delegations anew: it joined at the last place, or it thawed.
#[derive(Clone, Copy)]
pub(crate) struct Newcomer {
    /// Its place.
    pub(crate) k: u8,
    /// The number of pairs for which an entry stands: the number of its states if it joined, and 1
    /// if it thawed. Each lane of a row becomes as many neighbours.
    pub(crate) states: u8,
    /// The number of lanes of a row before the change.
    pub(crate) lanes: u32,
}

/// The entries of the batch stand for pairs of one or more rows. Returns the batch for the first of
/// these rows, and the lanes of the batch whose entries stand for pairs of other rows.
fn first_grown<J: Rules>(joint: &J, newcomer: Newcomer, batch: Batch) -> (Batch, u64)
    requires { CanGrow (J.arena joint.now) (J.lanes joint.now) newcomer batch }
    ensures { IsGrown (J.lanes joint.now) newcomer batch result.0 result.1 }
{
    joint.known(); // a row has 1 to 64 lanes, a pair's number fits in 32 bits
    let width = u32::from(newcomer.states);
    let slices = joint.lanes() / width;
    let (i, group, rest) = first_group(batch.lanes, slices);
    let grown = Batch {
        row: batch.row * (newcomer.lanes / slices) + i,
        reason: batch.reason,
        lanes: spread_lanes(group, slices, width),
    };
    (grown, rest)
}

/// Replays the pairs for which the entries of the batch stand. Its row becomes one or more whole
/// rows, or stays unchanged.
fn keep_grown<J: Rules, L: Ledger>(
    joint: &J,
    order: &mut Order,
    probe: &mut BandProbe,
    newcomer: Newcomer,
    batch: Batch,
    steps: &mut Steps<L>,
)
    requires { CanReplayGrown J.Rules joint.now newcomer order.old probe.old batch }
    ensures replayed { ReplaysAll J.Rules joint.now (entries_grown newcomer batch)
        order.old order.new probe.old probe.new steps.old steps.new }
    ensures rest { ChangesOnlyList order.old order.new }
{
    joint.known(); // a pair's number fits in 32 bits, a row has 1 to 64 lanes
    if newcomer.states == 1 && newcomer.lanes == joint.lanes() {
        return keep_lanes(joint, order, probe, batch, steps);
    }
    let mut left = batch.lanes;
    'left: while left != 0 {
        let whole = Batch {
            lanes: left,
            ..batch
        };
        let (grown, rest) = first_grown(joint, newcomer, whole);
        keep_lanes(joint, order, probe, grown, steps);
        left = rest;
    }
}

/// Replays the waiting entries, and appends those that it keeps to the list. Each entry stands for its
/// own pair with each state of the newcomer. Probes the newcomer alone until an entry is dropped: no other
/// seat keeps an entry from being justified.
pub(crate) fn replay<J: Rules, L: Ledger>(
    joint: &J,
    order: &mut Order,
    newcomer: Newcomer,
    steps: &mut Steps<L>,
)
    requires { CanReplayAll (J.arena joint.now) (J.lanes joint.now) newcomer order.old }
    ensures { HasReplayedAll (J.arena joint.now)
        (candidates newcomer.states order.old) order.old order.new steps.old steps.new }
{
    joint.known(); // a row has 1 to 64 lanes
    let mut probe = BandProbe::nothing(Some(newcomer.k));
    'replay: while let Some(batch) = order.next_waiting_batch() {
        keep_grown(joint, order, &mut probe, newcomer, batch, steps);
    }
}
