//! Targets.
ghost use Rattle.std.specs.Prelude.{◌≡◌, ◌<◌, length, All, IfOk, IfSome};
ghost use Rattle.roman_model.specs.System.{IsDeterministic, is_final};
ghost use Rattle.roman_model.specs.SystemArena.{beh_next, beh_prev};
ghost use Rattle.roman_parts.specs.Listed.{named_target, AreInRange};
ghost use Rattle.roman_parts.specs.Named.{IsOver};
ghost use Rattle.roman_parts.specs.Tables.{IsSole, have_steps};

use crate::automaton::Automaton;
use crate::cells::Cells;
use crate::environment::Environment;
use crate::steps::Move;
use roman_read::NameTable;
use std::alloc::{AllocError, Global};
use std::marker::Model;

/// A target over an environment, as in the Roman model: a behaviour that goes to at most one state
/// from each state, by each action, in each environment state. Contracts see the names of its states,
/// its record in normal form, and the numbers of states and actions of its environment.
///
/// All calls require numbers of states and actions that are in range. The look-ups take no memory.
pub struct Target {
    states: NameTable,
    automaton: Automaton,
}

// One proof step. A derived drop is a step for each vector, at each exit of a function that owns it.
impl Drop for Target {
    fn drop(self) {
        let Target {
            states: _,
            automaton: _,
        } = self;
    }
}

impl Model for Target {
    ghost use Rattle.roman_parts.specs.Named.{NamedTarget};
    ghost use Rattle.roman_parts.specs.Tables.{IsNamedTarget};

    ghost Value = { NamedTarget };

    ghost view = { λ s. record {
      states = s.states;
      env_states = s.automaton.env_states;
      actions = s.automaton.actions;
      beh = s.automaton.beh;
    } };

    ghost invariant = { λ s. IsNamedTarget s.states s.automaton };
}

impl Target {
    /// Returns the target over `env` with 1 to 64 states with these names, a start state, final
    /// states and steps (t, G, a, t') over their numbers. The state t' follows t on action a while
    /// the environment is in a state of G. Requires that steps from one state by one action to
    /// different successors share no environment state. Final states and steps may come in any order
    /// and repeat. The result is in normal form. Fails only when out of memory.
    pub fn from_lists(
        alloc: Global,
        states: NameTable,
        start: u8,
        finals: &[u8],
        steps: &[Move],
        env: &Environment,
    ) -> Result<Target, AllocError>
        requires lists { AreInRange (length states) env.now.env.actions start finals.now steps.now }
        requires single { IsDeterministic (named_target env.now states start finals.now steps.now).beh }
        ensures { IfOk result (λ made. made ≡ named_target env.now states start finals.now steps.now) }
    {
        env.known(); // the environment is well formed
        let cells = Cells::over(&states, env);
        let automaton = Automaton::from_lists(alloc, cells, start, finals, steps)?;
        Ok(Target { states, automaton })
    }

    /// Returns an equal target. Fails only when out of memory.
    pub fn copy(&self, alloc: Global) -> Result<Target, AllocError>
        ensures same { IfOk result (λ copy. copy ≡ self.now) }
    {
        Ok(Target {
            states: self.states.copy(alloc)?,
            automaton: self.automaton.copy(alloc)?,
        })
    }

    /// Does nothing. Its contract states that each state of the target has a name, that its numbers
    /// are in range, and that it is deterministic.
    pub fn known(&self)
        ensures count { length self.now.states ≡ self.now.beh.states }
        ensures known { IsOver self.now.env_states self.now.actions self.now.beh }
        ensures single { IsDeterministic self.now.beh }
    {
        self.automaton.known(); // the automaton is well formed
    }

    /// Returns the names of the states, by number.
    pub fn states(&self) -> &NameTable
        ensures names { result.now ≡ self.now.states }
        ensures count { length self.now.states ≡ self.now.beh.states }
        ensures known { IsOver self.now.env_states self.now.actions self.now.beh }
        ensures single { IsDeterministic self.now.beh }
    {
        self.known(); // the target is well formed
        &self.states
    }

    /// Returns the number of the start state.
    pub fn start(&self) -> u8
        ensures start { result ≡ self.now.beh.start }
        ensures within { result < self.now.beh.states }
    {
        self.automaton.start()
    }

    /// Returns whether `t` is a final state, in which the target may rest.
    pub fn is_final(&self, t: u8) -> bool
        requires { t < self.now.beh.states }
        ensures { result ≡ is_final self.now.beh t }
    {
        self.automaton.is_final(t)
    }

    /// Returns the state to which action `a` goes from state `t` in environment state `e`, or
    /// `None` exactly when there is no such state.
    #[tactic(auto, using(crate::proofs::NormalLemmas::single_next))]
    pub fn step(&self, t: u8, e: u8, a: u8) -> Option<u8>
        requires state { t < self.now.beh.states }
        requires env_state { e < self.now.env_states }
        requires action { a < self.now.actions }
        ensures next { IsSole (beh_next self.now.beh t e a) result }
        ensures below { IfSome result (λ to. to < self.now.beh.states) }
    {
        self.known(); // the target is deterministic
        self.automaton.next(t, e, a).first().copied()
    }

    /// Returns the states from which action `a` goes to state `t2` in environment state `e`, rising
    /// and without repeats.
    pub fn into(&self, t2: u8, e: u8, a: u8) -> &[u8]
        requires state { t2 < self.now.beh.states }
        requires env_state { e < self.now.env_states }
        requires action { a < self.now.actions }
        ensures prev { result.now ≡ beh_prev self.now.beh t2 e a }
        ensures below { All (λ from. from < self.now.beh.states) result.now }
    {
        self.automaton.prev(t2, e, a)
    }

    /// Returns whether the target allows action `a` in its state `t` and the state `e` of its
    /// environment `env`: whether both the target and the environment have a step on it.
    pub fn allows(&self, env: &Environment, t: u8, e: u8, a: u8) -> bool
        requires env_states { env.now.env.states ≡ self.now.env_states }
        requires actions { env.now.env.actions ≡ self.now.actions }
        requires state { t < self.now.beh.states }
        requires env_state { e < self.now.env_states }
        requires action { a < self.now.actions }
        ensures { result ≡ have_steps env.now.env self.now.beh t e a }
    {
        let ends = env.next(e, a).is_empty();
        let stops = self.automaton.next(t, e, a).is_empty();
        !ends && !stops
    }
}
