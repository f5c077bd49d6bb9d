//! States a law for readers on the repairs of `roman_repair`: they keep as many entries as
//! possible. Each call has a function here that makes the call and promises this. The law has a
//! crate of its own, above `roman_repair`, because it rests on a law of `roman_laws`. No other
//! crate uses it.
//!
//! After each call the tally's `kept` is the greatest number of entries of the renamed old list
//! that can be kept. Each part of that list, in its order, that is a removal list of the changed
//! system has at most `kept` entries, and is part of the first `kept` entries of the new list.
#![tactic(auto)]

ghost use Rattle.std.specs.Prelude.{◌<◌, length, IfOk};
ghost use Rattle.roman_model.specs.Change.{CanChange, Die, Freeze, Thaw};
ghost use Rattle.roman_model.specs.System as model;
ghost use Rattle.roman_joint.specs.NamedSys.{system_of};
ghost use Rattle.roman_relation.specs.Greatest.{IsUpToDate};
ghost use Rattle.roman_relation.specs.Seats.{IsFrozenAt, IsReadyAt};
ghost use Rattle.roman_repair.specs.Repairs.{IsNewSeat, joining};
ghost use Rattle.roman_repair_laws.specs.Calls.{CallKeepsTheMost};

use roman_io::Steps;
use roman_joint::Seat;
use roman_laws::repairs_keep_the_most;
use roman_relation::Relation;
use roman_repair::{JoinError, Tally, die, freeze, join, thaw};
use std::sync::ledger::Ledger;

/// Freezes service `k` by [`freeze`], which keeps the most entries.
pub fn freeze_keeps_the_most<L: Ledger>(
    relation: &mut Relation,
    k: u8,
    steps: &mut Steps<L>,
) -> Tally
    requires relation { IsUpToDate relation.old }
    requires ready { IsReadyAt relation.old.joint k }
    ensures kept { CallKeepsTheMost (Freeze k) relation.old relation.new result }
{
    repairs_keep_the_most();
    relation.joint.known(); // the system is well formed
    freeze(relation, k, steps)
}

/// Thaws service `k` by [`thaw`], which keeps the most entries.
pub fn thaw_keeps_the_most<L: Ledger>(relation: &mut Relation, k: u8, steps: &mut Steps<L>) -> Tally
    requires relation { IsUpToDate relation.old }
    requires place { k < length relation.old.joint.seats }
    requires frozen { IsFrozenAt relation.old.joint k }
    ensures kept { CallKeepsTheMost (Thaw k) relation.old relation.new result }
{
    repairs_keep_the_most();
    relation.joint.known(); // the system is well formed
    thaw(relation, k, steps)
}

/// Adds a service by [`join`], which keeps the most entries.
///
/// Fails exactly as `join` does.
pub fn join_keeps_the_most<L: Ledger>(
    relation: &mut Relation,
    seat: Seat,
    steps: &mut Steps<L>,
) -> Result<Tally, JoinError>
    requires relation { IsUpToDate relation.old }
    requires seat { IsNewSeat relation.old.joint seat }
    ensures kept { IfOk result (CallKeepsTheMost (joining relation.old.joint seat) relation.old relation.new) }
{
    repairs_keep_the_most();
    relation.joint.known(); // the system is well formed
    let tally = join(relation, seat, steps)?;
    relation.joint.known(); // and so is the system that the service has joined
    Ok(tally)
}

/// Removes service `k` by [`die`], which keeps the most entries.
pub fn die_keeps_the_most<L: Ledger>(relation: &mut Relation, k: u8, steps: &mut Steps<L>) -> Tally
    requires relation { IsUpToDate relation.old }
    requires seat { k < length relation.old.joint.seats }
    ensures kept { (seat : model.Seat) → CanChange (Die k seat) (system_of relation.old.joint) →
        CallKeepsTheMost (Die k seat) relation.old relation.new result }
{
    repairs_keep_the_most();
    relation.joint.known(); // the system is well formed
    die(relation, k, steps)
}
