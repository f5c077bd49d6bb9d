//! Renames the entries of a removal list after a service's death.
ghost use Rattle.std.specs.Prelude.{◌≡◌, ◌+◌, ◌*◌, ◌<◌, ◌≤◌, ◌||◌, not, [], length, slice_index};
ghost use Rattle.roman_model.specs.System.{Seat, is_final};
ghost use Rattle.roman_model.specs.Change.{Die};
ghost use Rattle.roman_model.specs.Numbers.{sizes_of, count};
ghost use Rattle.roman_model.specs.NumberedChange.{rename_numbers};
ghost use Rattle.roman_radix.specs.Rows.{lanes_of};
ghost use Rattle.roman_joint.specs.NamedSys.{system_of};
ghost use Rattle.roman_order.specs.Board.{ChangesOnlyList, pairs_of};
ghost use Rattle.roman_order.specs.Batches.{entries_at};
ghost use Rattle.roman_relation.specs.Greatest.{IsShapedFor, row_lanes};
ghost use Rattle.roman_repair.specs.Deaths.{IsGroupOf, CanDie, CanRename, IsGroup, IsWithin, RenamesAll, entries_from, sizes_left};
ghost use Rattle.roman_joint.specs.Pairs.{joint_pairs, joint_pair};

use crate::lanes::first_group;
use roman_joint::Joint;
use roman_model::Reason;
use roman_order::{Batch, Order};
use roman_radix::Shape;
use roman_rules::Rules;

/// Returns the width of the groups into which rows are split when the service `k` dies: the number
/// of neighbouring pairs of a group, from 1 to 64. Within a group the service has one state, and the
/// renamed pairs of the group lie in one row.
fn group_width(shape: &Shape, k: u8) -> u32
    requires { k < length shape.now.seats }
    ensures group { IsGroup shape.now.seats k result }
    ensures few { (0 < result) × (result ≤ 64) }
{
    shape.known(); // no size is 0
    if k < shape.low() {
        return shape.lanes();
    }
    shape.stride(k)
}

/// A service that dies.
#[derive(Clone, Copy)]
pub(crate) struct Leaver {
    /// Its place.
    pub(crate) k: u8,
    /// The number of lanes of a row without it.
    pub(crate) lanes: u32,
}

/// Returns whether the service `k` may leave its state in the pair `p` behind: whether it is loose,
/// or the state is final.
fn may_go(joint: &Joint, k: u8, p: u32) -> bool
    requires seat { k < length joint.now.seats }
    requires pair { p < joint_pairs joint.now }
    ensures { (seat : Seat) → CanDie joint.now k seat →
        result ≡ (not seat.rests || is_final seat.beh (slice_index (joint_pair joint.now p).bs k)) }
{
    joint.known(); // behaviours are over the environment
    let rests = joint.seat(k).rests;
    !rests || joint.behaviour(k).is_final(joint.shape().part_of(p, k))
}

/// Renames the entries for pairs of one group, and appends them to the list: one for each renamed
/// pair that has no entry yet. Appends nothing if the service may not leave its state behind. The
/// bits of `word` give the pairs, counted from `first`.
#[tactic(auto, using(crate::proofs::DeathEntries::left_row))]
fn rename_group(
    joint: &Joint,
    order: &mut Order,
    leaver: Leaver,
    first: u32,
    word: u64,
    reason: Reason,
)
    requires ready { CanRename joint.now leaver order.old }
    requires group { IsGroupOf joint.now leaver first word }
    ensures list { RenamesAll joint.now leaver (entries_from first word reason) order.old order.new }
    ensures rest { ChangesOnlyList order.old order.new }
{
    order.known(); // a row has 1 to 64 lanes
    if !may_go(joint, leaver.k, first) {
        return;
    }
    let shape = joint.shape();
    let left = shape.without(first, leaver.k);
    let x = left / leaver.lanes;
    let lost = (word << (left % leaver.lanes)) & order.words()[x as usize];
    order.push_on(x, lost, reason);
}

/// Renames the entries of the batch, group by group. For each renamed pair that has no entry yet,
/// appends the first entry in which the service may leave its state behind.
fn rename_row(joint: &Joint, order: &mut Order, leaver: Leaver, batch: Batch)
    requires ready { CanRename joint.now leaver order.old }
    requires within { IsWithin (system_of joint.now) batch }
    ensures list { RenamesAll joint.now leaver (entries_at (row_lanes joint.now) batch) order.old order.new }
    ensures rest { ChangesOnlyList order.old order.new }
{
    let shape = joint.shape();
    shape.known(); // no size is 0, a pair's number fits in 32 bits
    let width = group_width(shape, leaver.k);
    let first = batch.row * joint.lanes();
    let mut left = batch.lanes;
    'left: while left != 0 {
        let (i, group, rest) = first_group(left, width);
        rename_group(joint, order, leaver, first + i * width, group, batch.reason);
        left = rest;
    }
}

/// Renames the list to the pairs without the service `k`, and shapes the order for them. Requires
/// that no entry waits.
#[tactic(auto, using(crate::proofs::DeathEntries::renaming))]
pub(crate) fn rename_list(joint: &Joint, order: &mut Order, k: u8)
    requires shaped { IsShapedFor joint.now order.old }
    requires seat { k < length joint.now.seats }
    requires idle { order.old.waiting ≡ [] }
    ensures list { (seat : Seat) → CanDie joint.now k seat →
        order.new.list ≡ rename_numbers (Die k seat) (sizes_of (system_of joint.now)) order.old.list }
    ensures pairs { pairs_of order.new ≡ count (sizes_left joint.now k) }
    ensures lanes { order.new.lanes ≡ lanes_of (sizes_left joint.now k).seats }
    ensures caps { order.new.cap_pairs ≡ order.old.cap_pairs }
    ensures idle { order.new.waiting ≡ [] }
{
    let shape = joint.shape();
    shape.known(); // no size is 0
    order.known(); // listed pairs are pairs of the system, a row has 1 to 64 lanes
    let small = shape.shrink(k);
    let lanes = small.lanes();
    let leaver = Leaver { k, lanes };
    order.reopen(small.rows(), lanes);
    'waiting: while let Some(batch) = order.next_waiting_batch() {
        rename_row(joint, order, leaver, batch);
    }
}
