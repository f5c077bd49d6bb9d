//! Represents the values of related pairs as terms, so that one pass over the terms computes the
//! values for one more request.
ghost use Rattle.std.specs.Prelude.{◌≡◌, ◌+◌, ◌*◌, ◌^◌, ◌<◌, All, length, map, slice_index};
ghost use Rattle.roman_model.specs.Lists.{IsIn};
ghost use Rattle.roman_joint.specs.NamedSys.{system_of};
ghost use Rattle.roman_joint.specs.Outcomes.{outcome_numbers};
ghost use Rattle.roman_cost.specs.Advised.{HavePlaces};
ghost use Rattle.roman_cost.specs.Filling.{AreOutcomes, CanFill, IsOffered};
ghost use Rattle.roman_cost.specs.NamedWords.{related_numbers, AllowsAt, Appends, terms_of_service, terms_of_action, terms_of_pair};
ghost use Rattle.roman_cost.specs.Tables.{AreOf};
ghost use Rattle.roman_cost.specs.Terms.{nothing_yet, cheaper_of, standing_after, worked_out, outcome_terms};

use crate::costs::Costs;
use crate::outcomes::greater;
use roman_generator::offers;
use roman_joint::{Joint, Outcomes};
use roman_relation::Relation;
use roman_rules::Rules;
use std::alloc::AllocError;

/// A term of the values of related pairs. The terms of a pair are those of its allowed actions,
/// followed by `Pair`. The terms of an action are those of its delegations to offered services,
/// followed by `Action`. The terms of a delegation are its outcomes, followed by `Service`.
#[derive(Clone, Copy, Debug, PartialEq, Eq)]
pub(crate) enum Term {
    /// An outcome of a delegation, with the rank of its pair.
    Outcome(u32),
    /// The end of a delegation, with the cost of the service for the action.
    Service(u32),
    /// The end of an action that the target allows.
    Action,
    /// The end of a pair.
    Pair,
}

/// The state of the computation of the value of a pair.
#[derive(Clone, Copy, Debug, PartialEq, Eq)]
pub(crate) struct Standing {
    /// The cost of the most expensive action so far.
    pub worst: u32,
    /// The cost of the present action through the cheapest service so far, if there is one.
    pub cheapest: Option<u32>,
    /// The greatest value of the outcomes of the present delegation so far.
    pub dearest: u32,
}

/// Returns the lesser of the best cost so far, if there is one, and `cost`.
fn cheaper(best: Option<u32>, cost: u32) -> u32
    ensures { result ≡ cheaper_of best cost }
{
    match best {
        Some(found) if found <= cost => found,
        _ => cost,
    }
}

impl Standing {
    /// Returns the state before the first term of a pair.
    fn nothing() -> Standing
        ensures { result ≡ nothing_yet }
    {
        Standing {
            worst: 0,
            cheapest: None,
            dearest: 0,
        }
    }

    /// Returns the state after the term `term`. `later` has the values for one request fewer.
    #[inline(always)]
    fn after(self, term: Term, later: &[u32]) -> Standing
        ensures { result ≡ standing_after later.now term self }
    {
        match term {
            Term::Outcome(rank) => Standing {
                worst: self.worst,
                cheapest: self.cheapest,
                dearest: greater(self.dearest, value_in(later, rank)),
            },
            Term::Service(cost) => Standing {
                worst: self.worst,
                cheapest: Some(cheaper(self.cheapest, cost.saturating_add(self.dearest))),
                dearest: 0,
            },
            Term::Action => Standing {
                worst: greater(self.worst, self.cheapest.unwrap_or(0)),
                cheapest: None,
                dearest: 0,
            },
            Term::Pair => Standing::nothing(),
        }
    }
}

/// Returns the value of the given rank, or 0 past the end of the values.
fn value_in(later: &[u32], rank: u32) -> u32
    ensures { result ≡ slice_index later.now rank }
{
    let i = rank as usize;
    if i < later.len() { later[i] } else { 0 }
}

/// Computes the values of the pairs that have these terms, and appends them to `values`. `later` has
/// the values for one request fewer. Fails only when out of memory.
pub(crate) fn work_out(
    terms: &[Term],
    later: &[u32],
    values: &mut Vec<u32>,
) -> Result<(), AllocError>
    ensures { Appends values.old.items values.new.items (worked_out later.now terms.now nothing_yet) result }
{
    let mut standing = Standing::nothing();
    for term in terms {
        if *term == Term::Pair {
            values.push(standing.worst)?;
        }
        standing = standing.after(*term, later);
    }
    Ok(())
}

/// Appends the terms of the related pair `p`. Fails only when out of memory.
pub(crate) fn push_pair(
    terms: &mut Vec<Term>,
    relation: &Relation,
    costs: &Costs,
    ranks: &[u32],
    p: u32,
) -> Result<(), AllocError>
    requires known { CanFill relation.now costs.now ranks.now }
    requires pair { IsIn p (related_numbers relation.now.joint) }
    ensures { Appends terms.old.items terms.new.items (terms_of_pair relation.now.joint costs.now ranks.now p) result }
{
    for a in 0..relation.joint.actions() {
        if relation.joint.allowed(p, a) {
            push_action(terms, relation, costs, ranks, p, a)?;
        }
    }
    terms.push(Term::Pair)?;
    Ok(())
}

#[tactic(auto, using(crate::proofs::Ranks::related_below, crate::proofs::Ranks::related_is))]
/// Appends the terms of the action `a` at the related pair `p`. Fails only when out of memory.
fn push_action(
    terms: &mut Vec<Term>,
    relation: &Relation,
    costs: &Costs,
    ranks: &[u32],
    p: u32,
    a: u8,
) -> Result<(), AllocError>
    requires known { CanFill relation.now costs.now ranks.now }
    requires pair { IsIn p (related_numbers relation.now.joint) }
    requires allowed { AllowsAt relation.now.joint p a }
    ensures { Appends terms.old.items terms.new.items
        (terms_of_action relation.now.joint costs.now ranks.now p a) result }
{
    relation.joint.known(); // the system is well formed
    let offered = offers(relation, p, a);
    for k in 0..relation.joint.seats() {
        if offered.has(k) {
            push_service(terms, &relation.joint, costs, ranks, p, a, k)?;
        }
    }
    terms.push(Term::Action)?;
    Ok(())
}

/// Appends the terms of the delegation of the action `a` to the service `k` at the pair `p`. Fails
/// only when out of memory.
fn push_service(
    terms: &mut Vec<Term>,
    joint: &Joint,
    costs: &Costs,
    ranks: &[u32],
    p: u32,
    a: u8,
    k: u8,
) -> Result<(), AllocError>
    requires costs { AreOf joint.now costs.now }
    requires ranks { HavePlaces (related_numbers joint.now) ranks.now }
    requires seat { k < length joint.now.seats }
    requires offered { IsOffered (system_of joint.now) p a k }
    ensures { Appends terms.old.items terms.new.items (terms_of_service joint.now costs.now ranks.now p a k) result }
{
    joint.known(); // each seat's behaviour is in the catalogue
    let cost = costs.cost(joint.seat(k).behaviour, a);
    let outcomes = joint.outcomes(p, a, k);
    push_outcomes(terms, ranks, outcomes)?;
    terms.push(Term::Service(cost))?;
    Ok(())
}

/// Appends the terms of the outcomes of a delegation. Fails only when out of memory.
fn push_outcomes(
    terms: &mut Vec<Term>,
    ranks: &[u32],
    outcomes: Outcomes<'_>,
) -> Result<(), AllocError>
    requires { AreOutcomes (λ q. q < length ranks.now) outcomes }
    ensures { let numbers = outcome_numbers outcomes.entry in
        Appends terms.old.items terms.new.items (outcome_terms ranks.now numbers) result }
{
    let Outcomes {
        base,
        envs,
        env_stride,
        states,
        stride,
    } = outcomes;
    for env in envs {
        let from = base + u32::from(*env) * env_stride;
        push_states(terms, ranks, from, states, stride)?;
    }
    Ok(())
}

/// Appends the terms of the outcomes with one environment state. Fails only when out of memory.
fn push_states(
    terms: &mut Vec<Term>,
    ranks: &[u32],
    from: u32,
    states: &[u8],
    stride: u32,
) -> Result<(), AllocError>
    requires ranked { All (λ b. from + b * stride < length ranks.now) states.now }
    requires fits { All (λ b. from + b * stride < 2 ^ 32) states.now }
    ensures { let numbers = map (λ b. from + b * stride) states.now in
        Appends terms.old.items terms.new.items (outcome_terms ranks.now numbers) result }
{
    for state in states {
        let pair = from + u32::from(*state) * stride;
        terms.push(Term::Outcome(ranks[pair as usize]))?;
    }
    Ok(())
}
