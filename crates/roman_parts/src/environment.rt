//! Environments.
ghost use Rattle.std.specs.Prelude.{◌≡◌, ◌<◌, length, All, IfOk};
ghost use Rattle.roman_model.specs.System.{IsEnv};
ghost use Rattle.roman_model.specs.SystemArena.{env_next, env_prev};
ghost use Rattle.roman_parts.specs.Listed.{named_env, AreTriples, IsCountUpTo};

use crate::masks::triple_masks;
use crate::state_lists::StateLists;
use crate::steps::Triple;
use roman_model::{MAX_ACTIONS, MAX_STATES};
use roman_read::NameTable;
use std::alloc::{AllocError, Global};
use std::marker::Model;

/// An environment of the Roman model: finite sets of states and actions, a start state and steps (e,
/// a, e'). An action may lead from a state to several states, or to none. Contracts see its names,
/// and its record in normal form.
///
/// All calls require numbers of states and actions that are in range. The look-ups take no memory.
pub struct Environment {
    states: NameTable,
    actions: NameTable,
    start: u8,
    // The lists of state e and action a: the states to which it leads, and the states from which it
    // leads to e.
    next: StateLists,
    prev: StateLists,
}

// One proof step. A derived drop is a step for each vector, at each exit of a function that owns it.
impl Drop for Environment {
    fn drop(self) {
        let Environment {
            states: _,
            actions: _,
            start: _,
            next: _,
            prev: _,
        } = self;
    }
}

impl Model for Environment {
    ghost use Rattle.std.specs.Prelude.{length};
    ghost use Rattle.roman_parts.specs.Named.{NamedEnv};
    ghost use Rattle.roman_parts.specs.Tables.{list_has, HasStateLists};
    ghost use Rattle.roman_model.specs.Made.{env_from};

    ghost Value = { NamedEnv };

    ghost view = { λ s. record {
      states = s.states;
      actions = s.actions;
      env = env_from (length s.states) (length s.actions) s.start (list_has (length s.actions) s.next);
    } };

    ghost invariant = { λ s. HasStateLists
        (env_from (length s.states) (length s.actions) s.start (list_has (length s.actions) s.next)) s.next s.prev };
}

impl Environment {
    /// Returns the environment with 1 to 64 states and 1 to 32 actions with these names, a start
    /// state and steps (e, a, e') over their numbers. Steps may come in any order and repeat. The
    /// result is in normal form, with each step once. Fails only when out of memory.
    pub fn from_lists(
        alloc: Global,
        states: NameTable,
        actions: NameTable,
        start: u8,
        steps: &[Triple],
    ) -> Result<Environment, AllocError>
        requires states { IsCountUpTo MAX_STATES (length states) }
        requires actions { IsCountUpTo MAX_ACTIONS (length actions) }
        requires start { start < length states }
        requires steps { AreTriples (length states) (length actions) steps.now }
        ensures { IfOk result (λ made. made ≡ named_env states actions start steps.now) }
    {
        let height = states.len() as usize;
        let width = actions.len() as usize;
        let next = StateLists::of_masks(
            alloc,
            &triple_masks::<false>(alloc, height, width, steps)?,
        )?;
        let prev = StateLists::of_masks(
            alloc,
            &triple_masks::<true>(alloc, height, width, steps)?,
        )?;
        Ok(Environment {
            states,
            actions,
            start,
            next,
            prev,
        })
    }

    /// Returns an equal environment. Fails only when out of memory.
    pub fn copy(&self, alloc: Global) -> Result<Environment, AllocError>
        ensures same { IfOk result (λ copy. copy ≡ self.now) }
    {
        Ok(Environment {
            states: self.states.copy(alloc)?,
            actions: self.actions.copy(alloc)?,
            start: self.start,
            next: self.next.copy(alloc)?,
            prev: self.prev.copy(alloc)?,
        })
    }

    /// Does nothing. Its contract states that the numbers of the environment are in range.
    pub fn known(&self)
        ensures known { IsEnv self.now.env }
    {
        let _states = &self.states;
    }

    /// Returns the names of the states, by number.
    pub fn states(&self) -> &NameTable
        ensures names { result.now ≡ self.now.states }
        ensures count { length self.now.states ≡ self.now.env.states }
        ensures known { IsEnv self.now.env }
    {
        &self.states
    }

    /// Returns the names of the actions, by number.
    pub fn actions(&self) -> &NameTable
        ensures names { result.now ≡ self.now.actions }
        ensures count { length self.now.actions ≡ self.now.env.actions }
        ensures known { IsEnv self.now.env }
    {
        &self.actions
    }

    /// Returns the number of the start state.
    pub fn start(&self) -> u8
        ensures start { result ≡ self.now.env.start }
        ensures within { result < self.now.env.states }
    {
        self.start
    }

    /// Returns the states to which action `a` leads from state `e`, rising and without repeats.
    #[tactic(auto, using(crate::proofs::TableLemmas::look_ups))]
    pub fn next(&self, e: u8, a: u8) -> &[u8]
        requires state { e < self.now.env.states }
        requires action { a < self.now.env.actions }
        ensures next { result.now ≡ env_next self.now.env e a }
        ensures below { All (λ to. to < self.now.env.states) result.now }
    {
        let width = self.actions.len() as usize;
        self.next.list(e as usize * width + a as usize)
    }

    /// Returns the states from which action `a` leads to state `e`, rising and without repeats.
    #[tactic(auto, using(crate::proofs::TableLemmas::look_ups))]
    pub fn prev(&self, e: u8, a: u8) -> &[u8]
        requires state { e < self.now.env.states }
        requires action { a < self.now.env.actions }
        ensures prev { result.now ≡ env_prev self.now.env e a }
        ensures below { All (λ from. from < self.now.env.states) result.now }
    {
        let width = self.actions.len() as usize;
        self.prev.list(e as usize * width + a as usize)
    }
}
