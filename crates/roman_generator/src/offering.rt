//! The services that can be offered.
ghost use Rattle.std.specs.Prelude.{◌≢◌, ◌<◌};
ghost use Rattle.roman_relation.specs.Greatest.{IsUpToDate};
ghost use Rattle.roman_generator.specs.Moves.{AreOffers, IsAllowedAt, IsRelatedAt};
ghost use Rattle.roman_joint.specs.Pairs.{joint_pairs};

use roman_relation::Relation;
use roman_rules::SeatSet;

/// Returns the services that can be offered for the action `a` at the pair `p`: the ready ones that
/// have an outcome there, and only related outcomes. The set has at least one service. Requires a
/// related pair at which the action is allowed, and a relation whose list is complete, as
/// [`Relation::build`] and the repairs leave it. Allocates no memory.
///
/// These are the offers of the orchestrator generator of De Giacomo, Patrizi and Sardina, "Automatic
/// Behavior Composition Synthesis" (Artificial Intelligence 196, 2013).
pub fn offers(relation: &Relation, p: u32, a: u8) -> SeatSet
    requires complete { IsUpToDate relation.now }
    requires pair { p < joint_pairs relation.now.joint }
    requires related { IsRelatedAt relation.now.joint p }
    requires allowed { IsAllowedAt relation.now.joint p a }
    ensures offers { AreOffers relation.now.joint p a result }
    ensures some { result ≢ 0 }
{
    relation.joint.known(); // the system is well formed
    relation.order.known(); // listed pairs are pairs of the system
    relation.mask(p, a)
}
