//! Assigns the levels of a removal list to its pairs.
ghost use Rattle.std.specs.Prelude.{◌≡◌, ◌-◌, ◌<◌, ◌≤◌, length, IfOk};
ghost use Rattle.roman_relation.specs.Shaped.{HasShapeOf};
ghost use Rattle.roman_relation.specs.Settled.{AreLevels};
ghost use Rattle.roman_order.specs.Board.{pairs_of};
ghost use Rattle.roman_rank.specs.Ranking.{HasFewNodes, AreRanks, GivesLevel, HoldsAllLost};

use roman_io::Steps;
use roman_order::{Ahead, Order};
use roman_relation::settle_list;
use roman_rules::Rules;
use std::alloc::{AllocError, Global};
use std::sync::ledger::Ledger;

/// Returns the depth of each pair, or `u32::MAX` for a related pair. Requires an order whose list has
/// levels and every pair at which the opponent wins. Fails only when out of memory.
pub(crate) fn depths_by<J: Rules>(
    alloc: Global,
    joint: &J,
    order: &Order,
) -> Result<Vec<u32>, AllocError>
    requires few { HasFewNodes (J.arena joint.now) }
    requires shaped { HasShapeOf J.Rules joint.now order.now }
    requires levels { AreLevels (J.arena joint.now) order.now.levels order.now.list }
    requires all { HoldsAllLost (J.arena joint.now) order.now.list }
    ensures { IfOk result (λ depths. AreRanks (J.arena joint.now) depths.items) }
{
    joint.known(); // no two pairs have the same number
    order.known(); // no pair is listed twice
    let pairs = joint.pairs();
    let mut depths = vec![in alloc; u32::MAX; pairs as usize]?;
    // No depth exceeds the number of pairs.
    let count = order.levels().len().min(pairs as usize + 1);
    let mut start = 0;
    let mut near = 0;
    for n in 0..count {
        let end = order.levels()[n];
        near = give_depth(order, &mut depths, start, end, n as u32, near);
        start = end;
    }
    Ok(depths)
}

/// Sets the depth of the pairs of the entries from `start` up to `end` to `n`. Looks for the first of
/// these entries in the batch at place `near`, and then elsewhere. Returns the place of the batch in
/// which the search for the next level begins.
fn give_depth(order: &Order, depths: &mut [u32], start: u32, end: u32, n: u32, near: usize) -> usize
    requires pairs { length depths.old ≡ pairs_of order.now }
    requires within { end ≤ length order.now.list }
    ensures { GivesLevel order.now.list start end n depths.old depths.new }
{
    order.known(); // listed pairs are pairs of the system
    let mut ahead = Ahead::nothing(near);
    for i in start..end {
        let (pair, _) = order.read_on(i, &mut ahead);
        depths[pair as usize] = n;
    }
    ahead.next()
}

/// Returns the depth of each pair, or `u32::MAX` for a related pair. Runs the rounds anew, on a list of
/// its own. Fails only when out of memory.
#[tactic(auto, using(crate::proofs::Systems::settled_all))]
pub(crate) fn depths_anew<J: Rules, L: Ledger>(
    alloc: Global,
    joint: &J,
    steps: &mut Steps<L>,
) -> Result<Vec<u32>, AllocError>
    requires { HasFewNodes (J.arena joint.now) }
    ensures { IfOk result (λ depths. AreRanks (J.arena joint.now) depths.items) }
{
    joint.known(); // pairs are numbered from 0
    let lanes = joint.lanes();
    let mut order = Order::build(alloc, joint.pairs())?;
    order.shape_to(joint.rows(), lanes);
    settle_list(joint, &mut order, steps);
    depths_by(alloc, joint, &order)
}
