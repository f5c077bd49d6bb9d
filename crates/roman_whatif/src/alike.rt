//! Finds services that are equal except for their names: their failures have the same outlooks.
ghost use Rattle.std.specs.Prelude.{◌-◌, ◌<◌, IsTrue};
ghost use Rattle.roman_whatif.specs.Losses.{IsRepeated};
ghost use Rattle.roman_whatif.specs.Left.{HasPairAndSeat};

use roman_relation::Relation;

/// Returns whether the service at place `k` and the one before are alike: they have the same behaviour,
/// are in the same state at the pair `p`, are both frozen or both ready, and are both loose or neither.
/// Only their names differ.
pub(crate) fn is_repeated(base: &Relation, p: u32, k: u8) -> bool
    requires { HasPairAndSeat base.now.joint p k }
    ensures { IsTrue result → IsRepeated base.now.joint p k }
{
    if k == 0 {
        return false;
    }
    let shape = base.joint.shape();
    let before = base.joint.seat(k - 1);
    let own = base.joint.seat(k);
    let state_before = shape.part_of(p, k - 1);
    let own_state = shape.part_of(p, k);
    if own.behaviour != before.behaviour {
        return false;
    }
    if own.frozen != before.frozen {
        return false;
    }
    if own.rests != before.rests {
        return false;
    }
    own_state == state_before
}

/// Returns whether the service at place `j` and the two before it are alike.
pub(crate) fn is_third(base: &Relation, p: u32, j: u8) -> bool
    requires { HasPairAndSeat base.now.joint p j }
    ensures some { IsTrue result → 1 < j }
    ensures own { IsTrue result → IsRepeated base.now.joint p j }
    ensures before { IsTrue result → IsRepeated base.now.joint p (j - 1) }
{
    if j < 2 {
        return false;
    }
    if !is_repeated(base, p, j) {
        return false;
    }
    is_repeated(base, p, j - 1)
}
