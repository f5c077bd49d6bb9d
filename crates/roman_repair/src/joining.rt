//! Joins a service.
ghost use Rattle.std.specs.Prelude.{◌≡◌, ◌<◌, ◌++◌, ◌∷◌, [], ◌↔◌, length, Err, IfOk, OnOk, OnErr};
ghost use Rattle.roman_model.specs.Change.{after};
ghost use Rattle.roman_model.specs.declared.limits.TheConstants.{MAX_SERVICES};
ghost use Rattle.roman_joint.specs.NamedSys.{seat_of, system_of, cells};
ghost use Rattle.roman_relation.specs.Greatest.{IsUpToDate};
ghost use Rattle.roman_repair.specs.Repairs.{HasSeats, IsNewSeat, IsWithinReading, joining, Repairs};

use crate::replaying::Newcomer;
use crate::settling::replay_and_settle_on;
use crate::tally::Tally;
use roman_io::Steps;
use roman_joint::{Joint, Seat, SeatError};
use roman_relation::Relation;
use roman_rules::Rules;
use std::sync::ledger::Ledger;

/// Adds the service `seat` at the last place. The service must be ready, its name new, and its
/// behaviour a place of the catalogue. Grows each entry of the old list into one entry for each
/// state of the newcomer, and replays these: keeps an entry exactly if the entries kept before it
/// justify it. Allocates no memory. The number of steps is at most the number of delegations that
/// lead to added pairs plus the number of delegations of an allowed action to a ready service in
/// the new system.
///
/// Requires a complete list. Fails with `Full` exactly when there are already 32 services. Fails
/// with `Limit` exactly when there are fewer and the system with the service has more cells than
/// the limit. On failure the relation stays unchanged, and no step is counted.
pub fn join<L: Ledger>(
    relation: &mut Relation,
    seat: Seat,
    steps: &mut Steps<L>,
) -> Result<Tally, SeatError>
    requires relation { IsUpToDate relation.old }
    requires seat { IsNewSeat relation.old.joint seat }
    ensures joint { OnOk result (HasSeats relation.old relation.new (relation.old.joint.seats ++ seat ∷ [])) }
    ensures repaired { IfOk result (Repairs (joining relation.old.joint seat) relation.old relation.new) }
    ensures cost { IfOk result (λ tally. IsWithinReading relation.new tally steps.old steps.new) }
    ensures full { (result ≡ Err SeatError.Full) ↔ (length relation.old.joint.seats ≡ MAX_SERVICES) }
    ensures limit { (result ≡ Err SeatError.Limit)
        ↔ ((length relation.old.joint.seats < MAX_SERVICES) ×
        (relation.old.joint.limit < cells (after (joining relation.old.joint seat) (system_of relation.old.joint)))) }
    ensures refused { OnErr result ((relation.new ≡ relation.old) × (steps.new ≡ steps.old)) }
{
    relation.joint.known(); // the system is well formed
    relation.order.known(); // listed pairs are pairs of the system
    let states = states_of(&relation.joint, &seat);
    relation.joint.shape().known(); // no size is 0
    let lanes = relation.joint.lanes();
    let k = relation.joint.seats();
    let newcomer = Newcomer { k, states, lanes };
    relation.joint.push_seat(seat)?;
    relation.joint.known(); // the system is well formed
    Ok(replay_and_settle_on(relation, newcomer, steps))
}

/// Returns the number of states of the service's behaviour.
#[tactic(auto, using(roman_joint::proofs::CallerLemmas::states_range, roman_joint::proofs::CallerLemmas::seat_beh_read))]
fn states_of(joint: &Joint, seat: &Seat) -> u8
    requires { seat.now.behaviour < length joint.now.catalogue }
    ensures { result ≡ (seat_of joint.now.catalogue seat.now).beh.states }
{
    joint.catalogue()[seat.behaviour as usize].states().len() as u8
}
