//! Readers of the parts of a document.
ghost use Rattle.serde_json.specs.View.{view};
ghost use Rattle.roman_parts.specs.Reading.{Gives};
ghost use Rattle.roman_parts.specs.Parts.{environment_of, name_of, behaviour_of, target_of};

use crate::behaviour::Behaviour;
use crate::choice::check_single;
use crate::environment::Environment;
use crate::error::{List, PartError};
use crate::finals::read_finals;
use crate::names::{name_in, read_names, read_start};
use crate::reading::{looked, refused};
use crate::steps::{read_moves, read_triples};
use crate::target::Target;
use roman_model::{MAX_ACTIONS, MAX_STATES};
use roman_read::{Kind, Name, member, text};
use serde_json::Value;
use std::alloc::Global;

#[tactic(auto, unfolding(crate::specs::Parts::environment_of))]
/// Reads an environment from a JSON value in the form of system documents. Fails with `Refused`
/// exactly when the value breaks a rule, with the first broken rule in the order of the format, and
/// with `Memory` when out of memory.
pub fn read_environment(alloc: Global, v: &Value) -> Result<Environment, PartError>
    ensures environment { Gives (λ x. x) result (environment_of (view v.now)) }
{
    if !v.is_object() {
        return Err(refused(Kind::Form, List::Whole, 0));
    }
    let states = read_names(alloc, v, "states", List::States, MAX_STATES as u32)?;
    let start = read_start(&states, v)?;
    let actions = read_names(alloc, v, "actions", List::Actions, MAX_ACTIONS as u32)?;
    let steps = read_triples(alloc, &states, &actions, v)?;
    Ok(Environment::from_lists(alloc, states, actions, start, &steps)?)
}

#[tactic(auto, unfolding(crate::specs::Parts::behaviour_of))]
/// Reads a behaviour over `env` from a JSON value in the form of system documents. Doesn't check
/// whether another behaviour has its name. Fails with `Refused` exactly when the value breaks a rule,
/// with the first broken rule in the order of the format, and with `Memory` when out of memory.
pub fn read_behaviour(alloc: Global, v: &Value, env: &Environment) -> Result<Behaviour, PartError>
    ensures behaviour { Gives (λ x. x) result (behaviour_of env.now (view v.now)) }
{
    if !v.is_object() {
        return Err(refused(Kind::Form, List::Whole, 0));
    }
    let name = read_name(v)?;
    let states = read_names(alloc, v, "states", List::States, MAX_STATES as u32)?;
    let start = read_start(&states, v)?;
    let finals = read_finals(alloc, &states, v)?;
    let steps = read_moves(alloc, env.states(), env.actions(), &states, v)?;
    Ok(Behaviour::from_lists(alloc, name, states, start, &finals, &steps, env)?)
}

#[tactic(auto, using(crate::proofs::SingleLemmas::single_steps), unfolding(crate::specs::Parts::target_of))]
/// Reads a target over `env` from a JSON value in the form of system documents. Ignores a member
/// `name`. Fails with `Refused` exactly when the value breaks a rule, with the first broken rule in
/// the order of the format, and with `Memory` when out of memory.
pub fn read_target(alloc: Global, v: &Value, env: &Environment) -> Result<Target, PartError>
    ensures target { Gives (λ x. x) result (target_of env.now (view v.now)) }
{
    if !v.is_object() {
        return Err(refused(Kind::Form, List::Whole, 0));
    }
    let states = read_names(alloc, v, "states", List::States, MAX_STATES as u32)?;
    let start = read_start(&states, v)?;
    let finals = read_finals(alloc, &states, v)?;
    let steps = read_moves(alloc, env.states(), env.actions(), &states, v)?;
    check_single(env.states(), &steps)?;
    Ok(Target::from_lists(alloc, states, start, &finals, &steps, env)?)
}

#[tactic(auto, unfolding(crate::specs::Parts::name_of))]
/// Returns the name of a part: its member `name`. Fails with `Refused` exactly when the part isn't
/// an object, or the member is missing, isn't a text, or isn't a name.
pub fn read_name(v: &Value) -> Result<Name, PartError>
    ensures name { Gives (λ x. x) result (name_of (view v.now)) }
{
    let name = looked(member(v, "name"), List::Name, 0)?;
    name_in(name, List::Name, 0)
}
