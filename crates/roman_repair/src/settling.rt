//! Completes and counts the list, at the end of each repair.
ghost use Rattle.std.specs.Prelude.{◌+◌, ◌≤◌};
ghost use Rattle.roman_repair.specs.Growing.{CanAdmit, IsCapped, Admits};
ghost use Rattle.roman_repair.specs.Repairs.{IsBegun, IsWithinReading, fall_of, SettlesFrom};

use crate::replaying::{Newcomer, replay};
use crate::tally::Tally;
use roman_io::Steps;
use roman_relation::Relation;
use roman_rules::Rules;
use std::sync::ledger::Ledger;

/// Completes the list. Returns the number of entries before that, and the number of added entries.
pub(crate) fn settle_on<L: Ledger>(relation: &mut Relation, steps: &mut Steps<L>) -> Tally
    requires { IsBegun relation.old.joint relation.old.order }
    ensures settled { SettlesFrom relation.old.joint relation.old.order.list relation.new result }
    ensures cost { steps.new ≤ steps.old + fall_of relation.new result }
{
    let kept = relation.order.len();
    relation.settle(steps);
    Tally {
        kept,
        added: relation.order.len() - kept,
    }
}

/// Replays the list in the changed system, each entry for its pair with each state of the newcomer, and
/// completes it. The number of steps is at most the number of delegations that lead to added
/// pairs plus the number of delegations of an allowed action to a ready service.
#[tactic(auto, using(crate::proofs::Waiting::counted))]
pub(crate) fn replay_and_settle_on<L: Ledger>(
    relation: &mut Relation,
    newcomer: Newcomer,
    steps: &mut Steps<L>,
) -> Tally
    requires caps { IsCapped relation.old }
    requires ready { CanAdmit relation.old newcomer }
    ensures settled { Admits newcomer relation.old relation.new result }
    ensures cost { IsWithinReading relation.new result steps.old steps.new }
{
    relation.joint.known(); // allowed actions are in the system, a pair's number fits in 32 bits
    let rows = relation.joint.rows();
    relation.order.reopen(rows, relation.joint.lanes());
    replay(&relation.joint, &mut relation.order, newcomer, steps);
    settle_on(relation, steps)
}
