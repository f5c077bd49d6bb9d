//! The environment over the combined actions.
ghost use Rattle.std.specs.Prelude.{◌≡◌, ◌<◌, ◌≤◌, ◌++◌, length, map, IfOk, OnOk};
ghost use Rattle.roman_model.specs.declared.limits.TheConstants.{MAX_ACTIONS};
ghost use Rattle.roman_multi.specs.Lists.{listed_triples, triples_by, AreOver, ReturnsList};
ghost use Rattle.roman_multi.specs.Merges.{IsMerge, combined_environment};

use crate::merge::Merge;
use roman_model::Request;
use roman_parts::{Environment, Triple};
use roman_read::NameTable;
use std::alloc::{AllocError, Global};

/// Appends the steps from `e` to the states `next`, by combined action `n`.
fn push_triples(steps: &mut Vec<Triple>, e: u8, n: u8, next: &[u8]) -> Result<(), AllocError>
    ensures { OnOk result (steps.new.items ≡ steps.old.items ++ map (λ to. (e, n, to)) next.now) }
{
    for to in next {
        steps.push((e, n, *to))?;
    }
    Ok(())
}

/// Appends the steps from `e`.
fn push_state(
    steps: &mut Vec<Triple>,
    env: &Environment,
    requests: &[Request],
    e: u8,
) -> Result<(), AllocError>
    requires state { e < env.now.env.states }
    requires few { length requests.now ≤ MAX_ACTIONS }
    requires actions { AreOver env.now requests.now }
    ensures { OnOk result (steps.new.items ≡ steps.old.items ++ triples_by env.now.env requests.now e) }
{
    for n in 0..requests.len() {
        push_triples(steps, e, n as u8, env.next(e, requests[n].action))?;
    }
    Ok(())
}

/// Returns the steps by the combined actions.
fn triples_of(
    alloc: Global,
    env: &Environment,
    requests: &[Request],
) -> Result<Vec<Triple>, AllocError>
    requires few { length requests.now ≤ MAX_ACTIONS }
    requires actions { AreOver env.now requests.now }
    ensures { ReturnsList result (listed_triples env.now.env requests.now) }
{
    let mut steps = Vec::new(alloc);
    for e in 0..env.states().len() as u8 {
        push_state(&mut steps, env, requests, e)?;
    }
    Ok(steps)
}

/// Returns the environment with the combined actions, which have the given names.
#[tactic(auto, using(crate::proofs::TripleLemmas::listed_in_range))]
pub(crate) fn combine_environment(
    alloc: Global,
    merge: &Merge,
    names: NameTable,
) -> Result<Environment, AllocError>
    requires merge { IsMerge merge.now }
    requires names { length names ≡ length merge.now.requests.now }
    ensures { IfOk result (λ made. made ≡ combined_environment merge.now.env.now merge.now.requests.now names) }
{
    let env = merge.env;
    let steps = triples_of(alloc, env, merge.requests)?;
    let states = env.states().copy(alloc)?;
    Environment::from_lists(alloc, states, names, env.start(), &steps)
}
