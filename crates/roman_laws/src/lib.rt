//! Laws for readers: the meaning of the greatest ND-simulation, and its consequences. The crate
//! depends on `roman_model` alone, and no code of the program depends on it. Each law is the contract
//! of a function that computes nothing.
//!
//! `specs/Greatest` relates the greatest ND-simulation to removal lists, depths and replays, and
//! `specs/Following` has runs that follow the offers. `specs/Outcomes` characterises the tests of a
//! system by its steps, and `specs/Numbers` has the numbers of pairs. `specs/Controllers` has
//! controllers, and those that realise the target. `specs/Failing` has the failure of controllers
//! at pairs that aren't related. `specs/Losing` has the effect of losing services, and
//! `specs/Reduced` has systems without some of their services. `specs/Requests` has the requests of
//! each of several targets and the services that serve them. `specs/Repairs` has the greatest part
//! of a removal list that a change can keep.
#![tactic(auto)]

mod definitions;

ghost use Rattle.roman_laws.specs.Controllers.{ControllersTakeOffers};
ghost use Rattle.roman_laws.specs.Failing.{EveryControllerFails};
ghost use Rattle.roman_laws.specs.Losing.{LeastFailingSuffice, LosingNeverHelps};
ghost use Rattle.roman_laws.specs.Reduced.{ReducedAreSystems};
ghost use Rattle.roman_laws.specs.Repairs.{RepairsKeepTheMost, ReplaysKeepTheMost};
ghost use Rattle.roman_laws.specs.Requests.{RequestsOfTargets, TurnsOfTargets};

pub use definitions::{
    combined_is_all, following_stays, greatest_is_greatest, order_refutes, outcomes_are_steps,
    pairs_are_numbered, replay_keeps, shapes_are_numbered, unrelated_loses,
};

/// Some controller realises the target from a pair exactly when the pair is related. The controllers
/// that realise it are exactly those that take offers. For any controller, one of them chooses the
/// same service wherever that service is offered. They don't need to see the target's state.
#[tactic(auto, using(crate::proofs::ControllerLemmas::generator_all))]
pub fn controllers_take_offers()
    ensures controllers { ControllersTakeOffers }
{}

/// At a pair that isn't related every controller can fail within a number of requests that is known
/// beforehand. The least such number is the depth of the pair. The history in which a controller
/// fails is possible and finite, so no assumption on how often outcomes occur excludes it.
#[tactic(auto, using(crate::proofs::FailingLemmas::every_fails))]
pub fn fairness_buys_nothing()
    ensures fails { EveryControllerFails }
{}

/// A pair that is related with more services frozen is related with fewer. A pair that is related
/// after a death was related before it, if the service that died was loose or in a final state. A
/// set of services whose loss leaves the pair unrelated contains a least such set.
#[tactic(auto, using(crate::proofs::LosingLemmas::losing_never, crate::proofs::LosingLemmas::least_suffice))]
pub fn losing_never_helps()
    ensures never { LosingNeverHelps }
    ensures least { LeastFailingSuffice }
{}

/// A system without some of its services is well formed, the reduced pair is a pair of it, and the
/// outlook states whether that pair is related.
pub fn reduced_are_systems()
    ensures reduced { ReducedAreSystems }
{}

/// The system that combines several targets allows exactly the requests of each target, and offers
/// exactly the services that serve all targets. Each of its turns is a turn of the requesting target:
/// the services that serve it are those that serve all targets, and no other target moves.
#[tactic(auto, using(crate::proofs::RequestLemmas::requests_of, crate::proofs::RequestLemmas::turns_of))]
pub fn requests_of_targets()
    ensures requests { RequestsOfTargets }
    ensures turns { TurnsOfTargets }
{}

/// Each change keeps the longest part of the renamed removal list that is a removal list of the
/// changed system.
#[tactic(auto, using(crate::proofs::GreatestLemmas::repairs_most, crate::proofs::GreatestLemmas::replays_most))]
pub fn repairs_keep_the_most()
    ensures kept { RepairsKeepTheMost }
    ensures replayed { ReplaysKeepTheMost }
{}
