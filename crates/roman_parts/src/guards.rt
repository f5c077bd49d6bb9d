//! Readers of guards.
ghost use Rattle.std.specs.Prelude.{◌≡◌, ◌^◌, ◌<◌, ◌≤◌, IfOk, length, map, option_map, []};
ghost use Rattle.serde_json.specs.View.{view, items_view};
ghost use Rattle.roman_guard.specs.Meaning.{holds, states_of};
ghost use Rattle.roman_read.specs.Items.{each_item, pushing};
ghost use Rattle.roman_parts.specs.Reading.{Gives};
ghost use Rattle.roman_parts.specs.Guards.{sole_of, state_in, among_of, operator_of, guard_of, guards_of, guarded_states};

use crate::error::{List, PartError};
use crate::names::place_in;
use crate::reading::{list_at, refused};
use roman_guard::{Guard, StateSet, compile};
use roman_read::{Kind, NameTable};
use serde_json::Value;
use std::alloc::Global;

/// Reads a guard, and returns the environment states in which it holds.
#[tactic(auto, unfolding(crate::specs::Guards::guarded_states))]
pub(crate) fn read_states(
    alloc: Global,
    states: &NameTable,
    v: &Value,
    index: u32,
) -> Result<StateSet, PartError>
    requires { length states.now ≤ 64 }
    ensures states { Gives states_of result (guarded_states states.now index (view v.now)) }
    ensures below { IfOk result (λ set. set < 2 ^ length states.now) }
{
    let guard = read_guard(alloc, states, v, index)?;
    Ok(compile(&guard, states.len() as u8))
}

#[cycle(formula)]
#[tactic(auto, using(crate::proofs::GuardLemmas::guards))]
fn read_guard(alloc: Global, states: &NameTable, v: &Value, index: u32) -> Result<Guard, PartError>
    requires { length states.now ≤ 64 }
    ensures { Gives holds result (guard_of states.now index (view v.now)) }
{
    if let Some(all) = v.as_bool() {
        if all {
            return Ok(Guard::All);
        }
        return Ok(Guard::Never);
    }
    if let Some(items) = v.as_array() {
        return read_among(alloc, states, items, index);
    }
    match sole(v) {
        Some((name, inner)) => read_operator(alloc, states, name, inner, index),
        None => Err(refused(Kind::Form, List::Steps, index)),
    }
}

/// Reads the guard with the given operator.
#[cycle(formula)]
#[tactic(auto, using(crate::proofs::GuardLemmas::guards))]
fn read_operator(
    alloc: Global,
    states: &NameTable,
    name: &str,
    v: &Value,
    index: u32,
) -> Result<Guard, PartError>
    requires { length states.now ≤ 64 }
    ensures { Gives holds result
        (operator_of index name.now (guard_of states.now index (view v.now))
        (guards_of states.now index (view v.now))) }
{
    if name == "not" {
        let inner = read_guard(alloc, states, v, index)?;
        return Ok(Guard::Not(Box::new(alloc, inner)?));
    }
    if name == "all" {
        return Ok(Guard::Both(read_guards(alloc, states, v, index)?));
    }
    if name == "any" {
        return Ok(Guard::Either(read_guards(alloc, states, v, index)?));
    }
    Err(refused(Kind::Form, List::Steps, index))
}

#[cycle(formula)]
#[tactic(auto, using(crate::proofs::GuardLemmas::guard_lists))]
fn read_guards(
    alloc: Global,
    states: &NameTable,
    v: &Value,
    index: u32,
) -> Result<Vec<Guard>, PartError>
    requires { length states.now ≤ 64 }
    ensures { Gives (λ guards. map holds guards.items) result (guards_of states.now index (view v.now)) }
{
    let items = list_at(v, List::Steps, index)?;
    let mut guards = Vec::with_capacity(alloc, items.len())?;
    for item in items {
        guards.push(read_guard(alloc, states, item, index)?)?;
    }
    Ok(guards)
}

/// Reads the guard that lists its states.
#[tactic(auto, using(crate::proofs::GuardLemmas::guards), unfolding(crate::specs::Guards::among_of))]
fn read_among(
    alloc: Global,
    states: &NameTable,
    items: &[Value],
    index: u32,
) -> Result<Guard, PartError>
    requires { length states.now ≤ 64 }
    ensures { Gives holds result (among_of states.now index (items_view items.now)) }
{
    Ok(Guard::Among(read_places(alloc, states, items, index)?))
}

/// Reads a list of states.
#[tactic(auto, using(roman_read::proofs::CallerLemmas::pushes), unfolding(crate::specs::Guards::state_in))]
fn read_places(
    alloc: Global,
    states: &NameTable,
    items: &[Value],
    index: u32,
) -> Result<Vec<u8>, PartError>
    requires { length states.now ≤ 64 }
    ensures { Gives (λ places. places.items) result
        (each_item (pushing (state_in states.now index)) 0 [] (items_view items.now)) }
{
    let mut places = Vec::with_capacity(alloc, items.len())?;
    for item in items {
        places.push(place_in(states, item, List::Steps, index)?)?;
    }
    Ok(places)
}

/// Returns the only member of an object with exactly one member, and `None` for any other value.
#[tactic(auto, using(crate::proofs::GuardLemmas::soles))]
fn sole(v: &Value) -> Option<(&str, &Value)>
    ensures { option_map (λ m. (m.0.now, view m.1.now)) result ≡ sole_of (view v.now) }
{
    let members = v.as_object()?;
    if members.len() != 1 {
        return None;
    }
    let (name, inner) = members.first_key_value()?;
    Some((name.as_str(), inner))
}
