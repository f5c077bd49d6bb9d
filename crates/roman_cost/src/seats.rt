//! Compares the offered services.
ghost use Rattle.std.specs.Prelude.{◌≡◌, ℕ, ◌<◌, length};
ghost use Rattle.roman_joint.specs.NamedSys.{system_of};
ghost use Rattle.roman_cost.specs.Filling.{better_of, IsOffered};
ghost use Rattle.roman_cost.specs.NamedWords.{IsSomeRow, AreLeastCostsFor, cost_for};
ghost use Rattle.roman_cost.specs.Tables.{AreOf};

use crate::costs::Costs;
use crate::outcomes::greatest_outcome;
use roman_joint::Joint;

/// Returns the worst-case cost of the action `a` at the pair `p` when it is delegated to the
/// offered service `k`. `later` has the costs of the requests that follow.
pub(crate) fn cost_through(
    joint: &Joint,
    costs: &Costs,
    ranks: &[u32],
    later: &[u32],
    p: u32,
    a: u8,
    k: u8,
) -> u32
    requires costs { AreOf joint.now costs.now }
    requires seat { k < length joint.now.seats }
    requires offered { IsOffered (system_of joint.now) p a k }
    requires later { IsSomeRow joint.now costs.now ranks.now later.now }
    ensures { (h : ℕ) → AreLeastCostsFor joint.now costs.now h ranks.now later.now →
        result ≡ cost_for joint.now costs.now h p a k }
{
    joint.known(); // each seat's behaviour is in the catalogue
    let outcomes = joint.outcomes(p, a, k);
    let cost = costs.cost(joint.seat(k).behaviour, a);
    cost + greatest_outcome(ranks, later, outcomes)
}

/// Returns the better of the best service so far and the service `k`. If their costs are equal,
/// returns the best so far.
pub(crate) fn better(best: Option<(u8, u32)>, k: u8, cost: u32) -> Option<(u8, u32)>
    ensures { result ≡ better_of best k cost }
{
    match best {
        Some(found) if found.1 <= cost => Some(found),
        _ => Some((k, cost)),
    }
}
