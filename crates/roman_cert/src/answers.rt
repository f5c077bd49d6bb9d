//! Finds the answers that defeat the seats: the entries on which an entry depends.
ghost use Rattle.std.specs.Prelude.{◌≡◌, ◌<◌, length, take, Some, IfSome};
ghost use Rattle.roman_model.specs.Explanation.{answer as answer_of};
ghost use Rattle.roman_order.specs.Board.{pairs_of, has_entry};
ghost use Rattle.roman_cert.specs.Slices.{HasAct, IsOrderOf};

use roman_io::Steps;
use roman_model::Reason;
use roman_order::Order;
use roman_rules::{Finding, Rules};
use std::sync::ledger::Ledger;

/// Returns whether the list has an entry of the pair `q` before place `i`.
#[tactic(auto, using(crate::proofs::Answering::place_before, crate::proofs::Answering::no_place_before))]
fn is_before(order: &Order, i: u32, q: u32) -> bool
    requires { q < pairs_of order.now }
    ensures { result ≡ has_entry (take i order.now.list) q }
{
    match order.stamp(q) {
        Some(place) => place < i,
        None => false,
    }
}

/// Returns the defeating answer of seat `k` to the entry at place `i`, whose pair is `p` and whose
/// reason is the action `a`: the first outcome whose pair is earlier in the list. Outcomes are
/// ordered by the environment's state, and then by the seat's. Returns `None` if the seat isn't
/// ready or has no such outcome.
pub(crate) fn answer<J: Rules, L: Ledger>(
    joint: &J,
    order: &Order,
    i: u32,
    p: u32,
    a: u8,
    k: u8,
    steps: &mut Steps<L>,
) -> Option<u32>
    requires order { IsOrderOf (J.arena joint.now) order.now }
    requires entry { HasAct order.now.list i p a }
    requires seat { k < (J.arena joint.now).seats }
    ensures answer { result ≡ answer_of (J.arena joint.now) order.now.list p a k }
    ensures within { IfSome result (λ q. q < length (J.arena joint.now).nodes) }
{
    joint.known(); // outcomes are pairs of the system
    order.known(); // listed pairs are pairs of the system
    if !joint.is_ready(k) {
        return None;
    }
    let is_later = |q: u32| !is_before(order, i, q);
    match joint.examine(&is_later, p, a, k, steps) {
        Finding::Leaves { pair, .. } => Some(pair),
        Finding::Good | Finding::NoOutcome => None,
    }
}
