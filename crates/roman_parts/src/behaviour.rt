//! Behaviours.
ghost use Rattle.std.specs.Prelude.{◌≡◌, ◌<◌, length, All, IfOk};
ghost use Rattle.roman_model.specs.SystemArena.{beh_next, beh_prev};
ghost use Rattle.roman_model.specs.System.{is_final};
ghost use Rattle.roman_parts.specs.Listed.{named_beh, AreInRange};
ghost use Rattle.roman_parts.specs.Named.{IsOver};

use crate::automaton::Automaton;
use crate::cells::Cells;
use crate::environment::Environment;
use crate::steps::Move;
use roman_read::{Name, NameTable};
use std::alloc::{AllocError, Global};
use std::marker::Model;

/// A behaviour over an environment, as in the Roman model: a finite set of states, a start state,
/// final states, in which it may safely be stopped, and steps (b, G, a, b') for the environment
/// states in the guard G. An action may lead to several states. Contracts see its names, its record
/// in normal form, and the numbers of states and actions of its environment.
///
/// All calls require numbers of states and actions that are in range. The look-ups take no memory.
#[derive(Drop)]
pub struct Behaviour {
    name: Name,
    states: NameTable,
    automaton: Automaton,
}

impl Model for Behaviour {
    ghost use Rattle.roman_parts.specs.Named.{NamedBeh};
    ghost use Rattle.std.specs.Prelude.{◌≡◌, length};

    ghost Value = { NamedBeh };

    ghost view = { λ s. record {
      name = s.name;
      states = s.states;
      env_states = s.automaton.env_states;
      actions = s.automaton.actions;
      beh = s.automaton.beh;
    } };

    ghost invariant = { λ s. length s.states ≡ s.automaton.beh.states };
}

impl Behaviour {
    /// Returns the behaviour over `env` with this name, 1 to 64 states with these names, a start
    /// state, final states and steps (b, G, a, b') over their numbers. The state b' follows b on
    /// action a while the environment is in a state of G. Final states and steps may come in any
    /// order and repeat. The result is in normal form. Fails only when out of memory.
    pub fn from_lists(
        alloc: Global,
        name: Name,
        states: NameTable,
        start: u8,
        finals: &[u8],
        steps: &[Move],
        env: &Environment,
    ) -> Result<Behaviour, AllocError>
        requires lists { AreInRange (length states) env.now.env.actions start finals.now steps.now }
        ensures { IfOk result (λ made. made ≡ named_beh env.now name states start finals.now steps.now) }
    {
        env.known(); // the environment is well formed
        let cells = Cells::over(&states, env);
        let automaton = Automaton::from_lists(alloc, cells, start, finals, steps)?;
        Ok(Behaviour {
            name,
            states,
            automaton,
        })
    }

    /// Returns an equal behaviour. Fails only when out of memory.
    pub fn copy(&self, alloc: Global) -> Result<Behaviour, AllocError>
        ensures same { IfOk result (λ copy. copy ≡ self.now) }
    {
        Ok(Behaviour {
            name: self.name,
            states: self.states.copy(alloc)?,
            automaton: self.automaton.copy(alloc)?,
        })
    }

    /// Does nothing. Its contract states that each state of the behaviour has a name, and that its
    /// numbers are in range.
    pub fn known(&self)
        ensures count { length self.now.states ≡ self.now.beh.states }
        ensures known { IsOver self.now.env_states self.now.actions self.now.beh }
    {
        self.automaton.known(); // the automaton is well formed
    }

    /// Returns the name of the behaviour.
    pub fn name(&self) -> &Name
        ensures { result.now ≡ self.now.name }
    {
        &self.name
    }

    /// Returns the names of the states, by number.
    pub fn states(&self) -> &NameTable
        ensures names { result.now ≡ self.now.states }
        ensures count { length self.now.states ≡ self.now.beh.states }
        ensures known { IsOver self.now.env_states self.now.actions self.now.beh }
    {
        self.known(); // the behaviour is well formed
        &self.states
    }

    /// Returns the number of the start state.
    pub fn start(&self) -> u8
        ensures start { result ≡ self.now.beh.start }
        ensures within { result < self.now.beh.states }
    {
        self.automaton.start()
    }

    /// Returns whether `b` is a final state, in which the behaviour may safely be stopped.
    pub fn is_final(&self, b: u8) -> bool
        requires { b < self.now.beh.states }
        ensures { result ≡ is_final self.now.beh b }
    {
        self.automaton.is_final(b)
    }

    /// Returns the states to which action `a` goes from state `b` in environment state `e`, rising
    /// and without repeats.
    pub fn out(&self, b: u8, e: u8, a: u8) -> &[u8]
        requires state { b < self.now.beh.states }
        requires env_state { e < self.now.env_states }
        requires action { a < self.now.actions }
        ensures next { result.now ≡ beh_next self.now.beh b e a }
        ensures below { All (λ to. to < self.now.beh.states) result.now }
    {
        self.automaton.next(b, e, a)
    }

    /// Returns the states from which action `a` goes to state `b2` in environment state `e`, rising
    /// and without repeats.
    pub fn into(&self, b2: u8, e: u8, a: u8) -> &[u8]
        requires state { b2 < self.now.beh.states }
        requires env_state { e < self.now.env_states }
        requires action { a < self.now.actions }
        ensures prev { result.now ≡ beh_prev self.now.beh b2 e a }
        ensures below { All (λ from. from < self.now.beh.states) result.now }
    {
        self.automaton.prev(b2, e, a)
    }
}
