//! The combined target, over the combined actions.
ghost use Rattle.std.specs.Prelude.{◌≡◌, ◌<◌, ◌≤◌, ◌++◌, length, IfOk, OnOk};
ghost use Rattle.roman_model.specs.Numbers.{states_at};
ghost use Rattle.roman_model.specs.Several.{are_final};
ghost use Rattle.roman_model.specs.Combined.{target_sizes, combined_start};
ghost use Rattle.roman_model.specs.declared.limits.TheConstants.{MAX_STATES};
ghost use Rattle.roman_multi.specs.Combining.{machines, final_states, state_count};
ghost use Rattle.roman_multi.specs.Lists.{flat, listed_moves, moves_in, ReturnsList};
ghost use Rattle.roman_multi.specs.Merges.{IsMerge, IsOverMerge, next_in, state_total, merge_moves_by, merge_moves_from, merge_target};

use crate::merge::Merge;
use crate::parts::Named;
use roman_guard::StateSet;
use roman_parts::{Environment, Move, Target};
use roman_radix::Shape;
use roman_read::NameTable;
use std::alloc::{AllocError, Global};

/// Appends the step from `t` by combined action `n` in environment state `e`, if the requesting
/// target has a step there.
fn push_move(steps: &mut Vec<Move>, merge: &Merge, t: u8, n: u8, e: u8) -> Result<(), AllocError>
    requires merge { IsMerge merge.now }
    requires state { t < state_total merge.now }
    requires action { n < length merge.now.requests.now }
    requires env_state { e < merge.now.env.now.env.states }
    ensures { OnOk result (steps.new.items ≡ steps.old.items ++ moves_in t n e (next_in merge.now t n e)) }
{
    merge.env.known(); // the environment has at most 64 states
    let (targets, shape) = (merge.targets, merge.shape);
    let request = &merge.requests[n as usize];
    let member = &targets[request.target as usize].target;
    let state = shape.part_of(u32::from(t), request.target);
    match member.step(state, e, request.action) {
        None => Ok(()),
        Some(to) => {
            let next = shape.with_part(u32::from(t), request.target, to);
            steps.push((t, StateSet::single(e), n, next as u8))?;
            Ok(())
        }
    }
}

/// Appends the steps from `t` by combined action `n`.
#[tactic(auto, using(crate::proofs::ListLemmas::flat_map_pushed))]
fn push_action(steps: &mut Vec<Move>, merge: &Merge, t: u8, n: u8) -> Result<(), AllocError>
    requires merge { IsMerge merge.now }
    requires state { t < state_total merge.now }
    requires action { n < length merge.now.requests.now }
    ensures { OnOk result (steps.new.items
        ≡ steps.old.items ++ merge_moves_by merge.now t n) }
{
    for e in 0..merge.env.states().len() as u8 {
        push_move(steps, merge, t, n, e)?;
    }
    Ok(())
}

/// Appends the steps from `t`.
#[tactic(auto, using(crate::proofs::ListLemmas::flat_map_pushed))]
fn push_state(steps: &mut Vec<Move>, merge: &Merge, t: u8) -> Result<(), AllocError>
    requires merge { IsMerge merge.now }
    requires state { t < state_total merge.now }
    ensures { OnOk result (steps.new.items ≡ steps.old.items
        ++ merge_moves_from merge.now t) }
{
    for n in 0..merge.requests.len() as u8 {
        push_action(steps, merge, t, n)?;
    }
    Ok(())
}

/// Returns the steps by the combined actions.
#[tactic(auto, using(crate::proofs::ListLemmas::flat_map_begun))]
fn moves_of(alloc: Global, merge: &Merge) -> Result<Vec<Move>, AllocError>
    requires { IsMerge merge.now }
    ensures { ReturnsList result
        (listed_moves merge.now.env.now.env.states (length merge.now.requests.now) (state_total merge.now)
        (next_in merge.now)) }
{
    let mut steps = Vec::new(alloc);
    for t in 0..merge.shape.pairs() as u8 {
        push_state(&mut steps, merge, t)?;
    }
    Ok(steps)
}

/// Returns whether each target is in a final state.
fn are_final(targets: &[Named], shape: &Shape, t: u8) -> bool
    requires shape { shape.now ≡ flat (target_sizes (machines targets.now)) }
    requires state { t < state_count targets.now }
    requires count { length targets.now ≤ 4 }
    ensures { result ≡ are_final (machines targets.now) (states_at (target_sizes (machines targets.now)) t) }
{
    for i in 0..targets.len() {
        let state = shape.part_of(u32::from(t), i as u8);
        if !targets[i].target.is_final(state) {
            return false;
        }
    }
    true
}

/// Returns the combined states in which each target is final.
fn finals_of(alloc: Global, targets: &[Named], shape: &Shape) -> Result<Vec<u8>, AllocError>
    requires shape { shape.now ≡ flat (target_sizes (machines targets.now)) }
    requires few { state_count targets.now ≤ MAX_STATES }
    requires count { length targets.now ≤ 4 }
    ensures { ReturnsList result (final_states targets.now) }
{
    let mut finals = Vec::new(alloc);
    for t in 0..shape.pairs() as u8 {
        if are_final(targets, shape, t) {
            finals.push(t)?;
        }
    }
    Ok(finals)
}

/// Returns the combined state in which each target is in its start state.
fn start_of(alloc: Global, merge: &Merge) -> Result<u8, AllocError>
    requires { IsMerge merge.now }
    ensures { IfOk result (λ start. start ≡ combined_start (machines merge.now.targets.now)) }
{
    let mut starts = Vec::with_capacity(alloc, merge.targets.len())?;
    for named in merge.targets {
        starts.push(named.target.start())?;
    }
    Ok(merge.shape.number(0, 0, &starts) as u8)
}

/// Returns the combined target over the environment `over`, whose actions are the combined actions.
pub(crate) fn combine_target(
    alloc: Global,
    merge: &Merge,
    states: NameTable,
    over: &Environment,
) -> Result<Target, AllocError>
    requires merge { IsMerge merge.now }
    requires states { length states ≡ state_total merge.now }
    requires over { IsOverMerge merge.now over.now }
    ensures { IfOk result (λ made. made ≡ merge_target merge.now states) }
{
    merge.env.known(); // the environment is well formed
    let finals = finals_of(alloc, merge.targets, merge.shape)?;
    let start = start_of(alloc, merge)?;
    let steps = moves_of(alloc, merge)?;
    Target::from_lists(alloc, states, start, &finals, &steps, over)
}
