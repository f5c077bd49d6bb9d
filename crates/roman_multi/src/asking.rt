//! The requests of the targets.
ghost use Rattle.std.specs.Prelude.{◌≡◌, ◌<◌, ◌≤◌, ◌++◌, length, All, not, OnOk};
ghost use Rattle.std.specs.List.{list_any};
ghost use Rattle.roman_model.specs.Lists.{below, is_empty};
ghost use Rattle.roman_model.specs.SystemArena.{beh_next};
ghost use Rattle.roman_model.specs.Combined.{uses};
ghost use Rattle.roman_parts.specs.Named.{IsTarget};
ghost use Rattle.roman_multi.specs.Combining.{requests_in};
ghost use Rattle.roman_multi.specs.Lists.{used_by, ReturnsList};

use crate::parts::Named;
use roman_model::Request;
use roman_parts::{Environment, Target};
use std::alloc::{AllocError, Global};

/// Returns whether the target has a step by the action from state `t`, in some environment state.
fn uses_at(target: &Target, env_states: u8, t: u8, a: u8) -> bool
    requires states { env_states ≡ target.now.env_states }
    requires state { t < target.now.beh.states }
    requires action { a < target.now.actions }
    ensures { result ≡ list_any (λ e. not (is_empty (beh_next target.now.beh t e a))) (below env_states) }
{
    for e in 0..env_states {
        if target.step(t, e, a).is_some() {
            return true;
        }
    }
    false
}

/// Returns whether the target has a step by the action.
#[tactic(auto, using(crate::proofs::KnownLemmas::over_states))]
fn uses(target: &Target, env_states: u8, a: u8) -> bool
    requires states { env_states ≡ target.now.env_states }
    requires action { a < target.now.actions }
    ensures { result ≡ uses env_states target.now.beh a }
{
    for t in 0..target.states().len() as u8 {
        if uses_at(target, env_states, t, a) {
            return true;
        }
    }
    false
}

/// Appends the requests of the target at the given place.
fn push_requests(
    requests: &mut Vec<Request>,
    target: &Target,
    place: u8,
    env_states: u8,
    actions: u8,
) -> Result<(), AllocError>
    requires states { env_states ≡ target.now.env_states }
    requires actions { actions ≡ target.now.actions }
    ensures { OnOk result (requests.new.items
        ≡ requests.old.items ++ used_by env_states actions target.now.beh place) }
{
    for a in 0..actions {
        if uses(target, env_states, a) {
            requests.push(Request {
                target: place,
                action: a,
            })?;
        }
    }
    Ok(())
}

#[tactic(auto, using(crate::proofs::ListLemmas::flat_map_begun, crate::proofs::KnownLemmas::machine_at, crate::proofs::MoveLemmas::all_requests_are))]
/// Returns the combined actions: target by target, the actions by which it has a step.
pub(crate) fn requests(
    alloc: Global,
    env: &Environment,
    targets: &[Named],
) -> Result<Vec<Request>, AllocError>
    requires few { length targets.now ≤ 4 }
    requires known { All (λ named. IsTarget env.now named.target) targets.now }
    ensures requests { ReturnsList result (requests_in env.now targets.now) }
{
    let env_states = env.states().len() as u8;
    let actions = env.actions().len() as u8;
    let mut requests = Vec::new(alloc);
    for i in 0..targets.len() {
        push_requests(
            &mut requests,
            &targets[i].target,
            i as u8,
            env_states,
            actions,
        )?;
    }
    Ok(requests)
}
