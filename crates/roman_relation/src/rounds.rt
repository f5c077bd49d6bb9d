//! Plays the rounds that make a removal list complete.
ghost use Rattle.std.specs.Prelude.{◌≡◌, ◌≢◌, ℕ, suc, true, false, ◌+◌, ◌/◌, ◌≤◌, ◌⊎◌, IsTrue, [], length, drop};
ghost use Rattle.roman_model.specs.Arena.{is_listed, fall};
ghost use Rattle.roman_order.specs.Board.{is_marked, ChangesOnlyLevels, EndsLevel};
ghost use Rattle.roman_relation.specs.Shaped.{IsOrderFor};
ghost use Rattle.roman_relation.specs.Settled.{Begins, SettlesOn, IsSettled, HoldsLost, RisesByDepth, AreLevels, with_list_of};
ghost use Rattle.roman_relation.specs.Rounds.{AwaitsRoundOf, moves_to_all};

mod judging;
mod listing;
mod losses;
mod unfine;

use judging::judge_marked;
use losses::mark_losses;
use roman_io::Steps;
use roman_order::Order;
use roman_rules::Rules;
use std::sync::ledger::Ledger;
use unfine::list_unfine;

/// Prepares a removal list for rounds: lists the pairs that don't meet clause 2 of an
/// ND-simulation, stores all words as kept words, and marks all bands for the first round.
pub fn begin_rounds<J: Rules>(joint: &J, order: &mut Order)
    requires { IsOrderFor J.Rules joint.now order.old }
    ensures ready { AwaitsRoundOf J.Rules joint.now order.new }
    ensures goes_on { SettlesOn (J.arena joint.now) order.old order.new }
    ensures lost { order.old.list ≡ [] → HoldsLost (J.arena joint.now) 0 order.new.list }
{
    joint.known(); // a row has 1 to 64 lanes, a band has 1 to 64 rows
    list_unfine(joint, order);
    order.keep_before();
    order.mark_front(joint.bands());
}

/// Plays one round, after [`begin_rounds`] or another round. Lists each pair at which some allowed
/// action is served by no service, with the least such action. A service serves an action if it has
/// an outcome there, and only outcomes that weren't listed before the round. Judges only the pairs
/// of marked bands, and then marks the bands that the next round has to judge. If a round adds
/// nothing, the list is complete.
///
/// For each band in which pairs were added, counts one step for each delegation to a service before
/// the band's own that leads to a given one of its pairs. These are at most as many steps as
/// delegations lead to the added pairs.
pub fn play_round<J: Rules, L: Ledger>(joint: &J, order: &mut Order, steps: &mut Steps<L>)
    requires ready { AwaitsRoundOf J.Rules joint.now order.old }
    ensures ready { AwaitsRoundOf J.Rules joint.now order.new }
    ensures goes_on { SettlesOn (J.arena joint.now) order.old order.new }
    ensures only { let A = J.arena joint.now in (p : ℕ) → IsTrue (is_listed A order.new.list p) →
        IsTrue (is_listed A order.old.list p)
        ⊎ (is_marked order.old (p / J.lanes joint.now / J.band joint.now) ≡ true) }
    ensures lost { (n : ℕ) → HoldsLost (J.arena joint.now) n order.old.list →
        HoldsLost (J.arena joint.now) (suc n) order.new.list }
    ensures settled { length order.new.list ≡ length order.old.list → IsSettled (J.arena joint.now) order.new.list }
    ensures cost { steps.new ≤ steps.old + fall (J.arena joint.now) (drop (length order.old.list) order.new.list) }
    ensures steps { steps.new ≡ steps.old + moves_to_all (J.arena joint.now) (J.lanes joint.now) (J.band joint.now)
        (J.mid joint.now) order.old.rows (drop (length order.old.list) order.new.list) }
{
    joint.known(); // outcomes are pairs of the system
    order.known(); // each row has a kept word, listed pairs are pairs of the system
    let start = order.len();
    let near = order.batches().len();
    judge_marked(joint, order);
    mark_losses(joint, order, start, near, steps);
}

/// Extends a removal list by rounds, until it is complete: no reason adds a pair. Requires a list
/// in which each entry is justified by those before it.
///
/// Counts at most as many steps as delegations lead to the added pairs. From an empty list the
/// entries rise by depth, and the order keeps the ends of the levels: up to the end of level n the
/// list has the pairs at which the opponent wins within n requests. From any other list the order
/// keeps no levels.
pub fn settle_list<J: Rules, L: Ledger>(joint: &J, order: &mut Order, steps: &mut Steps<L>)
    requires { IsOrderFor J.Rules joint.now order.old }
    ensures settled { IsSettled (J.arena joint.now) order.new.list }
    ensures begins { Begins order.old.list order.new.list }
    ensures rest { order.new ≡ with_list_of order.old order.new }
    ensures levels { order.old.list ≡ [] → AreLevels (J.arena joint.now) order.new.levels order.new.list }
    ensures forgotten { order.old.list ≢ [] → order.new.levels ≡ [] }
    ensures rises { order.old.list ≡ [] → RisesByDepth (J.arena joint.now) order.new.list }
    ensures cost { steps.new ≤ steps.old + fall (J.arena joint.now) (drop (length order.old.list) order.new.list) }
{
    joint.known(); // no two pairs have the same number
    let is_fresh = order.len() == 0;
    order.forget_levels();
    begin_rounds(joint, order);
    'rounds: loop {
        order.known(); // there is room for the pairs
        end_level(order, is_fresh);
        let start = order.len();
        play_round(joint, order, steps);
        order.known(); // listed pairs are pairs of the system
        if order.len() == start {
            return;
        }
    }
}

// Ends a level if `is_kept` is true.
fn end_level(order: &mut Order, is_kept: bool)
    requires { length order.old.levels ≤ order.old.cap_pairs }
    ensures rest { ChangesOnlyLevels order.old order.new }
    ensures kept { is_kept ≡ true → EndsLevel order.old order.new }
    ensures left { is_kept ≡ false → order.new.levels ≡ order.old.levels }
    ensures few { length order.new.levels ≤ length order.old.levels + 1 }
{
    if is_kept {
        order.end_level();
    }
}
