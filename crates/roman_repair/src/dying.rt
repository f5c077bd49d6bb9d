//! Removes a service that dies.
ghost use Rattle.std.specs.Prelude.{◌+◌, ◌<◌, ◌≤◌, length};
ghost use Rattle.std.specs.List.{remove};
ghost use Rattle.roman_relation.specs.Greatest.{IsUpToDate};
ghost use Rattle.roman_repair.specs.Deaths.{RepairsDeath};
ghost use Rattle.roman_repair.specs.Repairs.{fall_of, HasSeats};

mod renaming;

use crate::settling::settle_on;
use crate::tally::Tally;
use renaming::rename_list;
use roman_io::Steps;
use roman_relation::Relation;
use std::sync::ledger::Ledger;

/// Removes the service at place `k` from the system, whatever its state. Later services move up by
/// one place. Considers only the entries in which the service may leave its state behind: it is
/// loose, or the state is final. Of these the list keeps the first entry of each renamed pair. All
/// of them are still justified, so no row is probed for them. Allocates no memory.
///
/// The number of steps is at most the number of delegations that lead to added pairs. Requires a
/// complete list.
pub fn die<L: Ledger>(relation: &mut Relation, k: u8, steps: &mut Steps<L>) -> Tally
    requires relation { IsUpToDate relation.old }
    requires seat { k < length relation.old.joint.seats }
    ensures joint { HasSeats relation.old relation.new (remove relation.old.joint.seats k) }
    ensures repaired { RepairsDeath k relation.old relation.new result }
    ensures cost { steps.new ≤ steps.old + fall_of relation.new result }
{
    relation.joint.known(); // the system is well formed
    relation.order.known(); // listed pairs are pairs of the system
    rename_list(&relation.joint, &mut relation.order, k);
    relation.joint.drop_seat(k);
    settle_on(relation, steps)
}
