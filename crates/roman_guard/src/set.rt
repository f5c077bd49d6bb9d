//! Sets of environment states in one word.
ghost use Rattle.std.specs.Prelude.{◌≡◌, ℕ, ◌^◌, ◌<◌, ◌≤◌, ◌↔◌, [], ◌∷◌, IsTrue, Contains, IfSome};
ghost use Rattle.roman_guard.specs.Meaning.{means, has_state, states_of, has_both, least_below};

use crate::formula::{Guard, holds_at};
use std::marker::Model;

/// A set of environment states below 64. The type is `Copy`. Contracts see the word whose bit `e`
/// is 1 exactly when state `e` is in the set.
#[derive(Clone, Copy, Debug, PartialEq, Eq)]
pub struct StateSet {
    bits: u64,
}

impl Model for StateSet {
    ghost use Rattle.std.specs.Prelude.{ℕ};

    ghost Value = { ℕ };

    ghost view = { λ s. s.bits };

    ghost inverse = { λ word. record { bits = word } };
}

impl StateSet {
    /// Returns the set with state `e` alone. Requires `e` below 64.
    #[tactic(auto, using(crate::proofs::SingleLemmas::single_states))]
    pub fn single(e: u8) -> StateSet
        requires { e < 64 }
        ensures states { states_of result ≡ e ∷ [] }
        ensures word { result ≡ 2 ^ e }
    {
        StateSet { bits: 1 << e }
    }

    /// Returns whether state `e` is in the set. Accepts any `e`.
    #[tactic(auto, using(crate::proofs::MarkLemmas::has_state_past))]
    pub fn has(&self, e: u8) -> bool
        ensures has { result ≡ has_state self.now e }
    {
        let bits = self.bits;
        e < 64 && (bits >> e) & 1 == 1
    }

    /// Returns the least state that both sets have, or `None` if they have no common state.
    #[tactic(auto, using(crate::proofs::CommonLemmas::commons, std::proofs::lemmas::Nat::and_le_l, crate::proofs::CommonLemmas::common_least))]
    pub fn first_common(&self, other: &StateSet) -> Option<u8>
        ensures least { result ≡ least_below (has_both self.now other.now) 64 }
        ensures within { IfSome result (λ e. e < 64) }
    {
        let common = self.bits & other.bits;
        if common == 0 {
            return None;
        }
        Some(common.trailing_zeros() as u8)
    }
}

/// Returns the states below `states` in which the guard holds. Requires at most 64 states. Numbers in
/// the guard that aren't below `states` are ignored. Walks the guard once for each state, and takes
/// no memory.
pub fn compile(guard: &Guard, states: u8) -> StateSet
    requires { states ≤ 64 }
    ensures has { (e : ℕ) → IsTrue (has_state result e) ↔ Contains (means guard.now states) e }
    ensures states { states_of result ≡ means guard.now states }
    ensures fits { result < 2 ^ states }
{
    let mut bits: u64 = 0;
    for e in 0..states {
        if holds_at(guard, e) {
            bits |= 1 << e;
        }
    }
    StateSet { bits }
}
