//! The laws that relate the definitions of `roman_model` to each other.

ghost use Rattle.roman_laws.specs.Following.{FollowingStays};
ghost use Rattle.roman_laws.specs.Greatest.{
  GreatestIsGreatest,
  OrderRefutes,
  ReplayKeeps,
  UnrelatedLoses,
};
ghost use Rattle.roman_laws.specs.Numbers.{PairsAreNumbered, ShapesAreNumbered};
ghost use Rattle.roman_laws.specs.Outcomes.{OutcomesAreSteps, TestsAreMembership};
ghost use Rattle.roman_model.specs.Combined.{CombinedIsAll};

/// The related pairs, as couples, meet the three clauses of an ND-simulation. Each ND-simulation is
/// part of them, and some finite one holds them all. They are the greatest ND-simulation.
#[tactic(auto, using(crate::proofs::GreatestLemmas::greatest_is))]
pub fn greatest_is_greatest()
    ensures greatest { GreatestIsGreatest }
{}

/// No pair of a removal list is related.
#[tactic(auto, using(crate::proofs::GreatestLemmas::order_refuted))]
pub fn order_refutes()
    ensures refuted { OrderRefutes }
{}

/// A pair is unrelated exactly when the opponent wins from it within as many requests as there are
/// pairs.
#[tactic(auto, using(crate::proofs::GreatestLemmas::unrelated_lost))]
pub fn unrelated_loses()
    ensures lost { UnrelatedLoses }
{}

/// The replay of a list with distinct pairs is a removal list. It keeps each sublist that is a
/// removal list.
#[tactic(auto, using(crate::proofs::GreatestLemmas::replay_kept))]
pub fn replay_keeps()
    ensures kept { ReplayKeeps }
{}

/// A run that starts at a related pair and follows the offers stays at related pairs. Clause 2 holds
/// at each of them, and each allowed action has an offer there.
#[tactic(auto, using(crate::proofs::GreatestLemmas::following_related))]
pub fn following_stays()
    ensures related { FollowingStays }
{}

/// The allowed actions, the outcomes and clause 2 agree with the steps of the system. An action is
/// allowed exactly when a target step by it exists. A pair is an outcome exactly when a target step
/// and a system step lead to it. If the target is in a final state, clause 2 requires that each seat
/// that rests is in one. The tests of triples, steps and final states are membership in their lists.
pub fn outcomes_are_steps()
    ensures outcomes { OutcomesAreSteps }
    ensures listed { TestsAreMembership }
{}

/// The pairs of a system and the numbers below their count correspond one to one.
#[tactic(auto, using(roman_model::proofs::CallerLemmas::numbers_are_pairs))]
pub fn pairs_are_numbered()
    ensures numbered { PairsAreNumbered }
{}

/// Pairs and lists of states correspond to their numbers one to one, for all sizes, even beyond the
/// limits of documents.
#[tactic(auto, using(crate::proofs::OutcomeLemmas::shapes_numbered))]
pub fn shapes_are_numbered()
    ensures numbered { ShapesAreNumbered }
{}

/// The system that combines several targets is well formed. A pair of it is related exactly when
/// some ND-simulation of all targets holds it, each target requesting on its own.
#[tactic(auto, using(roman_model::proofs::CallerLemmas::combined_is_all))]
pub fn combined_is_all()
    ensures combined { CombinedIsAll }
{}
