//! Thaws a service.
ghost use Rattle.std.specs.Prelude.{◌<◌, length, false};
ghost use Rattle.roman_model.specs.Change.{Thaw};
ghost use Rattle.roman_joint.specs.Changes.{with_frozen};
ghost use Rattle.roman_relation.specs.Greatest.{IsUpToDate};
ghost use Rattle.roman_relation.specs.Seats.{IsFrozenAt};
ghost use Rattle.roman_repair.specs.Repairs.{HasSeats, IsWithinReading, Repairs};

use crate::replaying::Newcomer;
use crate::settling::replay_and_settle_on;
use crate::tally::Tally;
use roman_io::Steps;
use roman_relation::Relation;
use roman_rules::Rules;
use std::sync::ledger::Ledger;

/// Thaws the frozen service at place `k`, so that it takes delegations again. Replays the old list:
/// keeps an entry exactly if the entries kept before it still justify it. Allocates no memory. The
/// number of steps is at most the number of delegations that lead to added pairs plus the number of
/// delegations of an allowed action to a ready service in the new system.
///
/// Requires a complete list.
pub fn thaw<L: Ledger>(relation: &mut Relation, k: u8, steps: &mut Steps<L>) -> Tally
    requires relation { IsUpToDate relation.old }
    requires place { k < length relation.old.joint.seats }
    requires frozen { IsFrozenAt relation.old.joint k }
    ensures joint { HasSeats relation.old relation.new (with_frozen relation.old.joint.seats k false) }
    ensures repaired { Repairs (Thaw k) relation.old relation.new result }
    ensures cost { IsWithinReading relation.new result steps.old steps.new }
{
    relation.joint.known(); // the system is well formed
    relation.order.known(); // listed pairs are pairs of the system
    let lanes = relation.joint.lanes();
    let newcomer = Newcomer {
        k,
        states: 1,
        lanes,
    };
    relation.joint.set_frozen(k, false);
    replay_and_settle_on(relation, newcomer, steps)
}
