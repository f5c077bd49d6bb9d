//! The laws over the definitions alone. Each law is the contract of a function with an empty body.

ghost use Rattle.roman_model.specs.Change.{RenamingKeeps};
ghost use Rattle.roman_model.specs.Laws.{NumberedCompletes, OrderCompletes};
ghost use Rattle.roman_model.specs.Offers.{OffersAreGenerator};
ghost use Rattle.roman_model.specs.Plans.{PlansCostLeast};
ghost use Rattle.roman_model.specs.Play.{DepthIsLeast, DepthWins, OrderWins};
ghost use Rattle.roman_model.specs.Without.{WithoutByChanges};

/// A removal list is complete if every unlisted pair meets clause 2 and has a seat in the mask of
/// each allowed action.
#[tactic(auto, using(crate::proofs::CompositionLemmas::order_completed))]
pub fn order_completes()
    ensures complete { OrderCompletes }
{}

/// The offers are those of the orchestrator generator. They are the masks of every complete removal
/// list.
#[tactic(auto, using(crate::proofs::CompositionLemmas::offers_are))]
pub fn offers_are_generator()
    ensures offered { OffersAreGenerator }
{}

/// The opponent that plays by a removal list wins from each of its pairs, within as many requests as
/// the list has entries, whichever seats serve.
#[tactic(auto, using(crate::proofs::PlayLemmas::order_won))]
pub fn order_wins()
    ensures won { OrderWins }
{}

/// The opponent that plays by depth wins from a pair of depth n within n requests, whichever seats
/// serve.
#[tactic(auto, using(crate::proofs::PlayLemmas::depth_won))]
pub fn depth_wins()
    ensures won { DepthWins }
{}

/// The depth of a pair is the least number of requests within which the opponent wins from it: no
/// way of delegating holds out against that many, and some way holds out against any smaller
/// number. A related pair has no depth.
#[tactic(auto, using(crate::proofs::PlayLemmas::depth_least))]
pub fn depth_is_least()
    ensures least { DepthIsLeast }
{}

/// At a related pair the plan that always takes the first of the cheapest offered seats has the least
/// worst-case cost of all plans for the same number of requests.
pub fn plans_cost_least()
    ensures least { PlansCostLeast }
{}

/// A system with one or two of its seats frozen or gone equals the system after that many changes.
#[tactic(auto, using(crate::proofs::WithoutLemmas::without_changes))]
pub fn without_by_changes()
    ensures there { WithoutByChanges }
{}

/// After a change the replay of the renamed removal list is a removal list of the new system. After a
/// freeze or a death it is the whole renamed list.
pub fn renaming_keeps()
    ensures kept { RenamingKeeps }
{}

/// A removal list over the numbers is complete over the pairs if every unlisted number meets clause
/// 2 and has a seat in the mask of each allowed action.
#[tactic(auto, using(crate::proofs::NumberedArena::numbered_completed))]
pub fn numbered_completes()
    ensures complete { NumberedCompletes }
{}
