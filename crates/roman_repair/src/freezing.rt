//! Freezes a service.
ghost use Rattle.std.specs.Prelude.{◌≡◌, ◌+◌, ◌≤◌, length, true};
ghost use Rattle.roman_model.specs.Change.{Freeze};
ghost use Rattle.roman_joint.specs.Changes.{with_frozen};
ghost use Rattle.roman_relation.specs.Greatest.{IsUpToDate};
ghost use Rattle.roman_relation.specs.Seats.{IsReadyAt};
ghost use Rattle.roman_repair.specs.Repairs.{fall_of, HasSeats, Repairs};

use crate::settling::settle_on;
use crate::tally::Tally;
use roman_io::Steps;
use roman_relation::Relation;
use std::sync::ledger::Ledger;

/// Freezes the ready service at place `k`, so that it takes no delegations. Keeps the whole old
/// list: the new list begins with it. Allocates no memory. The number of steps is at most the
/// number of delegations that lead to added pairs.
///
/// Requires a complete list.
pub fn freeze<L: Ledger>(relation: &mut Relation, k: u8, steps: &mut Steps<L>) -> Tally
    requires relation { IsUpToDate relation.old }
    requires ready { IsReadyAt relation.old.joint k }
    ensures joint { HasSeats relation.old relation.new (with_frozen relation.old.joint.seats k true) }
    ensures repaired { Repairs (Freeze k) relation.old relation.new result }
    ensures kept { result.kept ≡ length relation.old.order.list }
    ensures cost { steps.new ≤ steps.old + fall_of relation.new result }
{
    relation.joint.known(); // the system is well formed
    relation.order.known(); // listed pairs are pairs of the system
    relation.joint.set_frozen(k, true);
    settle_on(relation, steps)
}
