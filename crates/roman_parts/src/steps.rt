//! Readers of transitions.
ghost use Rattle.std.specs.Prelude.{◌<◌, ◌≤◌, IfOk, length, map};
ghost use Rattle.serde_json.specs.View.{view};
ghost use Rattle.roman_parts.specs.Listed.{triple_of, move_of, records, AreFewNames, AreStepsOf, AreTriples, IsStepOf};
ghost use Rattle.roman_parts.specs.Reading.{Gives};
ghost use Rattle.roman_parts.specs.Steps.{triple_item, triples_of, move_item, moves_of};

use crate::error::{List, PartError};
use crate::guards::read_states;
use crate::names::place_in;
use crate::reading::{counted_member, list_at, refused};
use roman_guard::StateSet;
use roman_model::MAX_STEPS;
use roman_read::{Kind, NameTable};
use serde_json::Value;
use std::alloc::Global;

/// A transition of an environment: from a state, by an action, to a state.
pub type Triple = (u8, u8, u8);

/// A transition of a behaviour: from a state, in the environment states of a guard, by an action, to a
/// state.
pub type Move = (u8, StateSet, u8, u8);

/// Reads the transitions of an environment.
#[tactic(auto, using(crate::proofs::StepLemmas::step_lists), unfolding(crate::specs::Steps::triples_of))]
pub(crate) fn read_triples(
    alloc: Global,
    states: &NameTable,
    actions: &NameTable,
    v: &Value,
) -> Result<Vec<Triple>, PartError>
    requires states { length states.now ≤ 64 }
    requires actions { length actions.now ≤ 64 }
    ensures steps { Gives (λ steps. map triple_of steps.items) result
        (triples_of states.now actions.now (view v.now)) }
    ensures within { IfOk result
        (λ steps. AreTriples (length states.now) (length actions.now) steps.items) }
{
    let items = counted_member(v, "steps", List::Steps, 0, MAX_STEPS)?;
    let mut steps = Vec::with_capacity(alloc, items.len())?;
    for (i, item) in items.iter().enumerate() {
        steps.push(read_triple(states, actions, item, i as u32)?)?;
    }
    Ok(steps)
}

/// Reads one transition of an environment.
#[tactic(auto, using(crate::proofs::StepLemmas::items), unfolding(crate::specs::Steps::triple_item))]
fn read_triple(
    states: &NameTable,
    actions: &NameTable,
    v: &Value,
    index: u32,
) -> Result<Triple, PartError>
    requires states { length states.now ≤ 64 }
    requires actions { length actions.now ≤ 64 }
    ensures step { Gives triple_of result (triple_item states.now actions.now index (view v.now)) }
    ensures within { IfOk result (λ t. (t.0 < length states.now) × (t.1 < length actions.now)
        × (t.2 < length states.now)) }
{
    let items = list_at(v, List::Steps, index)?;
    let [from, action, to] = items else {
        return Err(refused(Kind::Form, List::Steps, index));
    };
    let from = place_in(states, from, List::Steps, index)?;
    let action = place_in(actions, action, List::Steps, index)?;
    let to = place_in(states, to, List::Steps, index)?;
    Ok((from, action, to))
}

/// Reads the transitions of a behaviour or a target.
#[tactic(auto, using(crate::proofs::StepLemmas::step_lists), unfolding(crate::specs::Steps::moves_of))]
pub(crate) fn read_moves(
    alloc: Global,
    env_states: &NameTable,
    actions: &NameTable,
    states: &NameTable,
    v: &Value,
) -> Result<Vec<Move>, PartError>
    requires names { AreFewNames env_states.now actions.now states.now }
    ensures steps { Gives (λ steps. records steps.items) result
        (moves_of env_states.now actions.now states.now (view v.now)) }
    ensures known { IfOk result (λ steps. AreStepsOf env_states.now actions.now states.now steps.items) }
{
    let items = counted_member(v, "steps", List::Steps, 0, MAX_STEPS)?;
    let mut steps = Vec::with_capacity(alloc, items.len())?;
    for (i, item) in items.iter().enumerate() {
        steps.push(read_move(alloc, env_states, actions, states, item, i as u32)?)?;
    }
    Ok(steps)
}

/// Reads one transition of a behaviour or a target.
#[tactic(auto, using(crate::proofs::StepLemmas::items), unfolding(crate::specs::Steps::move_item))]
fn read_move(
    alloc: Global,
    env_states: &NameTable,
    actions: &NameTable,
    states: &NameTable,
    v: &Value,
    index: u32,
) -> Result<Move, PartError>
    requires names { AreFewNames env_states.now actions.now states.now }
    ensures step { Gives move_of result (move_item env_states.now actions.now states.now index (view v.now)) }
    ensures known { IfOk result (IsStepOf env_states.now actions.now states.now) }
{
    let items = list_at(v, List::Steps, index)?;
    let [from, guard, action, to] = items else {
        return Err(refused(Kind::Form, List::Steps, index));
    };
    let from = place_in(states, from, List::Steps, index)?;
    let guard = read_states(alloc, env_states, guard, index)?;
    let action = place_in(actions, action, List::Steps, index)?;
    let to = place_in(states, to, List::Steps, index)?;
    Ok((from, guard, action, to))
}
