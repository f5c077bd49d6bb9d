//! The combination of several targets.
ghost use Rattle.std.specs.Prelude.{◌≡◌, ◌≤◌, length, All};
ghost use Rattle.roman_multi.specs.Combining.{IsBehaviourOf, ObeysRules, combined_parts, forbidding, has_bad_count, Makes};
ghost use Rattle.roman_multi.specs.Lists.{AreCombinedNames};
ghost use Rattle.roman_multi.specs.Merges.{AreSeveral, AreTargetsOf, IsMerge, merge_parts, merge_rule, AreOverEnv};

use crate::asking::requests;
use crate::behaviours::combine_catalogue;
use crate::environment::combine_environment;
use crate::error::CombineError;
use crate::merge::Merge;
use crate::parts::{Combined, Named};
use crate::sizes::sizes_of;
use crate::tables::table_of;
use crate::target::combine_target;
use crate::words::{has_long, request_words, state_words};
use roman_model::{MAX_ACTIONS, MAX_STATES, Request};
use roman_parts::{Behaviour, Environment};
use roman_radix::Shape;
use roman_read::NameTable;
use std::alloc::Global;

#[tactic(auto, using(crate::proofs::CombineLemmas::fitting), unfolding(crate::specs::Combining::forbidding))]
/// Combines 2 to 4 targets into one, with the environment and the catalogue over its actions.
/// Requires targets and a catalogue over `env`. The combined actions are, target by target, the
/// actions that occur in some step of the target. Each is named by the action, a dash and the target.
/// The combined states are the lists of one state for each target, in the order in which the last
/// target's state changes fastest. Their names join the names of these states by dashes.
///
/// Fails with `States`, `Actions`, `LongName` or `Repeated` exactly when the rule is broken, with
/// the first broken rule in this order, and with `Memory` only when out of memory.
pub fn combine(
    alloc: Global,
    env: &Environment,
    catalogue: &[Behaviour],
    targets: &[Named],
) -> Result<Combined, CombineError>
    requires count { AreSeveral targets.now }
    requires catalogue { All (IsBehaviourOf env.now) catalogue.now }
    requires targets { AreTargetsOf env.now targets.now }
    ensures parts { Makes result (combined_parts env.now catalogue.now targets.now) }
    ensures rules { ObeysRules result (forbidding env.now targets.now) }
{
    let sizes = sizes_of(alloc, env, targets)?;
    let Some(shape) = Shape::new(1, 1, &sizes, u32::from(MAX_STATES)) else {
        return Err(CombineError::States);
    };
    let requests = requests(alloc, env, targets)?;
    if has_bad_count(&requests) {
        return Err(CombineError::Actions);
    }
    let merge = Merge {
        env,
        targets,
        shape: &shape,
        requests: &requests,
    };
    combine_parts(alloc, &merge, catalogue)
}

/// Returns whether there are no requests, or more requests than the greatest number of actions.
fn has_bad_count(requests: &[Request]) -> bool
    ensures { result ≡ has_bad_count requests.now }
{
    requests.is_empty() || requests.len() > MAX_ACTIONS as usize
}

/// Returns the combined parts, if their names break no rule.
fn combine_parts(
    alloc: Global,
    merge: &Merge,
    catalogue: &[Behaviour],
) -> Result<Combined, CombineError>
    requires merge { IsMerge merge.now }
    requires catalogue { AreOverEnv merge.now catalogue.now }
    ensures parts { Makes result (merge_parts merge.now catalogue.now) }
    ensures rules { ObeysRules result (merge_rule merge.now) }
{
    let names = names_of(alloc, merge)?;
    let (states, actions) = names;
    let environment = combine_environment(alloc, merge, actions)?;
    let catalogue = combine_catalogue(alloc, merge, catalogue, &environment)?;
    let target = combine_target(alloc, merge, states, &environment)?;
    Ok(Combined {
        environment,
        catalogue,
        target,
    })
}

#[tactic(auto, using(crate::proofs::CombineLemmas::name_counts))]
/// Returns the names of the combined states and actions.
fn names_of(alloc: Global, merge: &Merge) -> Result<(NameTable, NameTable), CombineError>
    requires { IsMerge merge.now }
    ensures { AreCombinedNames merge.now.env.now merge.now.targets.now result }
{
    let states = state_words(alloc, merge)?;
    let actions = request_words(alloc, merge)?;
    if has_long(&states) || has_long(&actions) {
        return Err(CombineError::LongName);
    }
    let states = table_of(alloc, &states)?;
    let actions = table_of(alloc, &actions)?;
    Ok((states, actions))
}
