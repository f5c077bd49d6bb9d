//! Choices: pairs of transitions that break the determinism of a target.
ghost use Rattle.std.specs.Prelude.{◌≡◌, ◌<◌, ◌≤◌, OnOk, Some, length};
ghost use Rattle.roman_parts.specs.Listed.{move_of, AreGuarded, records};
ghost use Rattle.roman_parts.specs.Reading.{Gives};
ghost use Rattle.roman_parts.specs.Choices.{choice_between, choice_with, choice_of, single_of, HasNoChoice};

use crate::error::{List, PartError};
use crate::reading::refused;
use crate::steps::Move;
use roman_model::MAX_STEPS;
use roman_read::{Kind, NameTable};

/// Refuses the first transition that forms a choice with an earlier one. The refusal names the first
/// such earlier transition, and the least environment state of their choice. Takes no memory.
#[tactic(auto, using(std::proofs::lemmas::Option::get_or_from_slice_get), unfolding(crate::specs::Choices::single_of))]
pub(crate) fn check_single(env_states: &NameTable, steps: &[Move]) -> Result<(), PartError>
    requires few { length steps.now ≤ MAX_STEPS }
    requires guards { AreGuarded env_states.now steps.now }
    ensures single { Gives (λ _. records steps.now) result
        (single_of env_states.now (records steps.now)) }
    ensures none { OnOk result (HasNoChoice steps.now) }
{
    match find_choice(steps) {
        None => Ok(()),
        Some((j, (i, state))) => {
            let kind = Kind::Choice {
                first: i as u32,
                state: *env_states.at(state as u32),
            };
            Err(refused(kind, List::Steps, j as u32))
        }
    }
}

/// Returns the first transition that forms a choice with an earlier one, the first such earlier
/// transition, and the least environment state of their choice.
#[tactic(auto, using(crate::proofs::ChoiceLemmas::searching, crate::proofs::ChoiceLemmas::choice_steps), unfolding(crate::specs::Choices::choice_of))]
fn find_choice(steps: &[Move]) -> Option<(usize, (usize, u8))>
    ensures { result ≡ choice_of (records steps.now) }
{
    for j in 0..steps.len() {
        if let Some(earlier) = choice_with(steps, j) {
            return Some((j, earlier));
        }
    }
    None
}

/// Returns the first transition before number `j` with which it forms a choice, and the least
/// environment state of the choice.
#[tactic(auto, using(crate::proofs::ChoiceLemmas::searching, crate::proofs::ChoiceLemmas::choice_steps), unfolding(crate::specs::Choices::choice_with))]
fn choice_with(steps: &[Move], j: usize) -> Option<(usize, u8)>
    requires { j < length steps.now }
    ensures { result ≡ choice_with (records steps.now) j }
{
    let step = &steps[j];
    for (i, earlier) in steps[..j].iter().enumerate() {
        if let Some(state) = choice_between(step, earlier) {
            return Some((i, state));
        }
    }
    None
}

/// Returns the least environment state in which two transitions form a choice.
#[tactic(auto, using(crate::proofs::ChoiceLemmas::pairs), unfolding(crate::specs::Choices::choice_between))]
fn choice_between(step: &Move, other: &Move) -> Option<u8>
    ensures { result ≡ choice_between (Some (move_of step.now)) (Some (move_of other.now)) }
{
    if step.0 != other.0 {
        return None;
    }
    if step.2 != other.2 {
        return None;
    }
    if step.3 == other.3 {
        return None;
    }
    step.1.first_common(&other.1)
}
