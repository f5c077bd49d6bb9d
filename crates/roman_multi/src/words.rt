//! The combined names as words, which may be too long for names.
ghost use Rattle.std.specs.Prelude.{◌≡◌, ◌<◌, ◌++◌, ◌∷◌, length, map, All, IfOk, if◌then◌else◌, OnOk};
ghost use Rattle.std.specs.List.{list_any};
ghost use Rattle.roman_multi.specs.Combining.{is_long, request_name, request_names, combined_state_names, state_name};
ghost use Rattle.roman_multi.specs.Merges.{IsMerge, state_total};
ghost use Rattle.roman_multi.specs.Lists.{AreNameBytes, IsWord, ReturnsList};

use crate::merge::Merge;
use crate::parts::Named;
use roman_model::{MAX_NAME_BYTES, Request};
use roman_parts::Environment;
use roman_read::Name;
use std::alloc::{AllocError, Global};

/// Appends a name, after a dash unless it is the first.
fn push_name(word: &mut Vec<u8>, name: &Name, first: bool) -> Result<(), AllocError>
    requires { AreNameBytes word.old.items }
    ensures word { OnOk result (word.new.items ≡ word.old.items ++ (if first then name.now else 45 ∷ name.now)) }
    ensures bytes { OnOk result (AreNameBytes word.new.items) }
    ensures some { OnOk result (0 < length word.new.items) }
{
    if !first {
        word.push(b'-')?;
    }
    word.extend_from_slice(name.bytes())?;
    Ok(())
}

/// Returns the name of combined state `t`.
fn state_word(alloc: Global, merge: &Merge, t: u32) -> Result<Vec<u8>, AllocError>
    requires merge { IsMerge merge.now }
    requires state { t < state_total merge.now }
    ensures word { ReturnsList result (state_name merge.now.targets.now t) }
    ensures bytes { IfOk result (λ word. IsWord word.items) }
{
    let (targets, shape) = (merge.targets, merge.shape);
    let mut word = Vec::new(alloc);
    for i in 0..targets.len() {
        let names = targets[i].target.states();
        let state = shape.part_of(t, i as u8);
        push_name(&mut word, names.at(u32::from(state)), i == 0)?;
    }
    Ok(word)
}

#[tactic(auto, using(std::proofs::lemmas::Grind::common_steps))]
/// Returns the names of the combined states.
pub(crate) fn state_words(alloc: Global, merge: &Merge) -> Result<Vec<Vec<u8>>, AllocError>
    requires { IsMerge merge.now }
    ensures words { IfOk result (λ words. map (λ word. word.items) words.items
        ≡ combined_state_names merge.now.targets.now) }
    ensures bytes { IfOk result (λ words. All (λ word. IsWord word.items) words.items) }
{
    let mut words = Vec::new(alloc);
    for t in 0..merge.shape.pairs() {
        words.push(state_word(alloc, merge, t)?)?;
    }
    Ok(words)
}

/// Returns the name of a combined action.
fn request_word(
    alloc: Global,
    env: &Environment,
    targets: &[Named],
    request: &Request,
) -> Result<Vec<u8>, AllocError>
    requires target { request.now.target < length targets.now }
    requires action { request.now.action < env.now.env.actions }
    ensures word { ReturnsList result (request_name env.now.actions targets.now request.now) }
    ensures bytes { IfOk result (λ word. IsWord word.items) }
{
    let mut word = Vec::new(alloc);
    let actions = env.actions();
    push_name(&mut word, actions.at(u32::from(request.action)), true)?;
    push_name(&mut word, &targets[request.target as usize].name, false)?;
    Ok(word)
}

#[tactic(auto, using(std::proofs::lemmas::Grind::common_steps))]
/// Returns the names of the combined actions.
pub(crate) fn request_words(alloc: Global, merge: &Merge) -> Result<Vec<Vec<u8>>, AllocError>
    requires { IsMerge merge.now }
    ensures words { IfOk result
        (λ words. map (λ word. word.items) words.items ≡ request_names merge.now.env.now merge.now.targets.now) }
    ensures bytes { IfOk result (λ words. All (λ word. IsWord word.items) words.items) }
{
    let mut words = Vec::new(alloc);
    for request in merge.requests {
        words.push(request_word(alloc, merge.env, merge.targets, request)?)?;
    }
    Ok(words)
}

/// Returns whether some word is longer than a name may be.
pub(crate) fn has_long(words: &[Vec<u8>]) -> bool
    ensures { result ≡ list_any is_long (map (λ word. word.items) words.now) }
{
    for word in words {
        if word.len() > MAX_NAME_BYTES as usize {
            return true;
        }
    }
    false
}
