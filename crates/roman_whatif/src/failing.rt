//! Tries the failures of services.
ghost use Rattle.std.specs.Prelude.{◌≡◌, ◌<◌, ◌↔◌, [], ◌∷◌, length, IfSome, IsTrue};
ghost use Rattle.roman_model.specs.Composition.{Great};
ghost use Rattle.roman_model.specs.Numbers.{sizes_of, pair_at};
ghost use Rattle.roman_model.specs.Without.{system_without, pair_without};
ghost use Rattle.roman_joint.specs.NamedSys.{system_of};
ghost use Rattle.roman_relation.specs.Greatest.{HasCaps, IsUpToDate};
ghost use Rattle.roman_whatif.specs.Left.{failing_places, HasPairAndSeat, IsScratchOf, IsIdleScratchOf, FailsTo};
ghost use Rattle.roman_whatif.specs.Losses.{left_of};
ghost use Rattle.roman_whatif.specs.Told.{told};
ghost use Rattle.roman_joint.specs.Pairs.{joint_pairs};

use crate::outlook::{Outlook, now};
use roman_io::Steps;
use roman_model::Way;
use roman_relation::Relation;
use roman_repair::freeze;
use std::sync::ledger::Ledger;

/// Returns the outlook after the service at place `first` of `base` fails, or those at the places
/// `first` and `second`: the outlook of the pair that remains of the pair `p`, in the system that
/// remains. The freeze of a frozen service changes nothing.
///
/// Tries the failure on `scratch`, which was made from `base`, and leaves `base` unchanged.
/// Requires a complete list of `base`, and `second` greater than `first`. Allocates no memory.
pub fn without<L: Ledger>(
    scratch: &mut Relation,
    base: &Relation,
    p: u32,
    first: u8,
    second: Option<u8>,
    way: Way,
    steps: &mut Steps<L>,
) -> Outlook
    requires base { IsUpToDate base.now }
    requires scratch { IsScratchOf base.now.joint scratch.old }
    requires pair { p < joint_pairs base.now.joint }
    requires first { first < length base.now.joint.seats }
    requires second { IfSome second (λ j. (first < j) × (j < length base.now.joint.seats)) }
    ensures outlook { told result ≡ left_of base.now.joint p way (failing_places first second) }
    ensures great { let s = system_of base.now.joint in let K = failing_places first second in
        IsTrue result.composes ↔ Great (system_without way K s) (pair_without way K (pair_at (sizes_of s) p)) }
    ensures scratch { IsScratchOf base.now.joint scratch.new }
{
    scratch.reset_to(base);
    match second {
        None => {
            let left = fail(scratch, p, first, way, steps);
            now(scratch, left)
        }
        // The later service fails first, so that the earlier one keeps its place.
        Some(second) => {
            let between = fail(scratch, p, second, way, steps);
            let left = fail(scratch, between, first, way, steps);
            now(scratch, left)
        }
    }
}

/// Makes `scratch` the relation `from` after the failure of its service at place `k`. Overwrites
/// the contents of `scratch`, and leaves `from` unchanged. Returns the pair that remains of `p`.
/// Requires that no entry of `scratch` waits.
pub(crate) fn fail_on<L: Ledger>(
    scratch: &mut Relation,
    from: &Relation,
    p: u32,
    k: u8,
    way: Way,
    steps: &mut Steps<L>,
) -> u32
    requires scratch { IsIdleScratchOf from.now.joint scratch.old }
    requires from { IsUpToDate from.now }
    requires place { HasPairAndSeat from.now.joint p k }
    ensures { FailsTo way (k ∷ []) from.now p scratch.new result }
{
    match way {
        Way::Freeze => {
            scratch.reset_to(from);
            freeze_seat(scratch, p, k, steps)
        }
        Way::Die => {
            scratch.joint.reset_seats_to(&from.joint);
            lose_seat(scratch, p, k, steps)
        }
    }
}

/// Makes the service at place `k` of `relation` fail. Returns the pair that remains of `p`.
fn fail<L: Ledger>(relation: &mut Relation, p: u32, k: u8, way: Way, steps: &mut Steps<L>) -> u32
    requires relation { IsUpToDate relation.old }
    requires place { HasPairAndSeat relation.old.joint p k }
    ensures { FailsTo way (k ∷ []) relation.old p relation.new result }
{
    match way {
        Way::Freeze => freeze_seat(relation, p, k, steps),
        Way::Die => lose_seat(relation, p, k, steps),
    }
}

/// Freezes the service at place `k`, unless it is frozen already. Returns `p`: a freeze keeps the
/// pairs.
fn freeze_seat<L: Ledger>(relation: &mut Relation, p: u32, k: u8, steps: &mut Steps<L>) -> u32
    requires relation { IsUpToDate relation.old }
    requires place { HasPairAndSeat relation.old.joint p k }
    ensures { FailsTo Way.Freeze (k ∷ []) relation.old p relation.new result }
{
    let seat = *relation.joint.seat(k);
    if seat.frozen {
        return p;
    }
    freeze(relation, k, steps);
    p
}

/// Removes the service at place `k`, and returns the pair that remains of `p`. Builds the list
/// anew. This costs less than a repair, because the remaining system is smaller. Requires that no
/// entry waits.
fn lose_seat<L: Ledger>(relation: &mut Relation, p: u32, k: u8, steps: &mut Steps<L>) -> u32
    requires caps { HasCaps relation.old.joint relation.old.order }
    requires idle { relation.old.order.waiting ≡ [] }
    requires place { HasPairAndSeat relation.old.joint p k }
    ensures { FailsTo Way.Die (k ∷ []) relation.old p relation.new result }
{
    let left = relation.joint.shape().without(p, k);
    relation.joint.drop_seat(k);
    relation.afresh(steps);
    left
}
