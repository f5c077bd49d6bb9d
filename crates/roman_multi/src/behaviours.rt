//! Behaviours over the combined actions.
ghost use Rattle.std.specs.Prelude.{◌≡◌, ◌<◌, ◌++◌, length, IfOk, OnOk};
ghost use Rattle.std.specs.List.{filter};
ghost use Rattle.roman_model.specs.Lists.{below};
ghost use Rattle.roman_model.specs.System.{is_final};
ghost use Rattle.roman_multi.specs.Combining.{IsBehaviourOf};
ghost use Rattle.roman_multi.specs.Lists.{listed_moves, moves_in, ReturnsList};
ghost use Rattle.roman_multi.specs.Merges.{IsMember, IsMerge, IsOverMerge, next_of_member, member_moves_by, member_moves_from, merge_behaviour, AreOverEnv, merge_catalogue};

use crate::merge::Merge;
use roman_guard::StateSet;
use roman_model::Request;
use roman_parts::{Behaviour, Environment, Move};
use std::alloc::{AllocError, Global};

/// A behaviour, the environment that it is over, and the combined actions.
#[derive(Clone, Copy)]
pub(crate) struct Member<'a> {
    env: &'a Environment,
    requests: &'a [Request],
    behaviour: &'a Behaviour,
}

/// Appends the steps from `b` to the states `next`, by combined action `n` in environment state `e`.
fn push_moves(steps: &mut Vec<Move>, b: u8, e: u8, n: u8, next: &[u8]) -> Result<(), AllocError>
    requires { e < 64 }
    ensures { OnOk result (steps.new.items ≡ steps.old.items ++ moves_in b n e next.now) }
{
    for to in next {
        steps.push((b, StateSet::single(e), n, *to))?;
    }
    Ok(())
}

/// Appends the steps from `b` by combined action `n`.
#[tactic(auto, using(crate::proofs::ListLemmas::pushed))]
fn push_action(steps: &mut Vec<Move>, member: &Member, b: u8, n: u8) -> Result<(), AllocError>
    requires member { IsMember member.now }
    requires state { b < member.now.behaviour.now.beh.states }
    requires action { n < length member.now.requests.now }
    ensures { OnOk result (steps.new.items
        ≡ steps.old.items ++ member_moves_by member.now b n) }
{
    let a = member.requests[n as usize].action;
    for e in 0..member.env.states().len() as u8 {
        push_moves(steps, b, e, n, member.behaviour.out(b, e, a))?;
    }
    Ok(())
}

/// Appends the steps from `b`.
#[tactic(auto, using(crate::proofs::ListLemmas::flat_map_pushed))]
fn push_state(steps: &mut Vec<Move>, member: &Member, b: u8) -> Result<(), AllocError>
    requires member { IsMember member.now }
    requires state { b < member.now.behaviour.now.beh.states }
    ensures { OnOk result (steps.new.items ≡ steps.old.items
        ++ member_moves_from member.now b) }
{
    for n in 0..member.requests.len() as u8 {
        push_action(steps, member, b, n)?;
    }
    Ok(())
}

/// Returns the steps by the combined actions.
#[tactic(auto, using(crate::proofs::ListLemmas::flat_map_begun, crate::proofs::KnownLemmas::over_states))]
fn moves_of(alloc: Global, member: &Member) -> Result<Vec<Move>, AllocError>
    requires { IsMember member.now }
    ensures { ReturnsList result (listed_moves member.now.env.now.env.states
        (length member.now.requests.now)
        member.now.behaviour.now.beh.states (next_of_member member.now)) }
{
    let behaviour = member.behaviour;
    behaviour.known(); // the behaviour has at most 64 states
    let mut steps = Vec::new(alloc);
    for b in 0..behaviour.states().len() as u8 {
        push_state(&mut steps, member, b)?;
    }
    Ok(steps)
}

#[tactic(auto, using(crate::proofs::KnownLemmas::over_states))]
fn finals_of(alloc: Global, behaviour: &Behaviour) -> Result<Vec<u8>, AllocError>
    ensures { ReturnsList result
        (filter (is_final behaviour.now.beh) (below behaviour.now.beh.states)) }
{
    let mut finals = Vec::new(alloc);
    for b in 0..behaviour.states().len() as u8 {
        if behaviour.is_final(b) {
            finals.push(b)?;
        }
    }
    Ok(finals)
}

/// Returns the behaviour over the combined actions, which are the actions of the environment `over`.
fn combine_behaviour(
    alloc: Global,
    merge: &Merge,
    behaviour: &Behaviour,
    over: &Environment,
) -> Result<Behaviour, AllocError>
    requires merge { IsMerge merge.now }
    requires of { IsBehaviourOf merge.now.env.now behaviour.now }
    requires over { IsOverMerge merge.now over.now }
    ensures { IfOk result (λ made. made ≡ merge_behaviour merge.now behaviour.now) }
{
    let (env, requests) = (merge.env, merge.requests);
    env.known(); // the environment is well formed
    let finals = finals_of(alloc, behaviour)?;
    let member = Member {
        env,
        requests,
        behaviour,
    };
    let steps = moves_of(alloc, &member)?;
    let states = behaviour.states().copy(alloc)?;
    Behaviour::from_lists(
        alloc,
        *behaviour.name(),
        states,
        behaviour.start(),
        &finals,
        &steps,
        over,
    )
}

/// Returns the behaviours over the combined actions, in the same order.
pub(crate) fn combine_catalogue(
    alloc: Global,
    merge: &Merge,
    catalogue: &[Behaviour],
    over: &Environment,
) -> Result<Vec<Behaviour>, AllocError>
    requires merge { IsMerge merge.now }
    requires of { AreOverEnv merge.now catalogue.now }
    requires over { IsOverMerge merge.now over.now }
    ensures { ReturnsList result (merge_catalogue merge.now catalogue.now) }
{
    let mut made = Vec::with_capacity(alloc, catalogue.len())?;
    for behaviour in catalogue {
        made.push(combine_behaviour(alloc, merge, behaviour, over)?)?;
    }
    Ok(made)
}
