//! The cells of a table: one for each state, environment state and action.
ghost use Rattle.std.specs.Prelude.{◌≡◌, ◌+◌, ◌*◌, ◌^◌, ◌<◌, ◌≤◌, length};

use crate::environment::Environment;
use roman_model::MAX_STATES;
use roman_read::NameTable;

/// The numbers of states, environment states and actions for which a table has cells.
#[derive(Clone, Copy, Debug)]
pub(crate) struct Cells {
    pub(crate) states: usize,
    pub(crate) env_states: usize,
    pub(crate) actions: usize,
    ghost small: { (states ≤ 64) × (env_states ≤ 64) × (actions ≤ 32) },
}

impl Cells {
    /// Returns the cells of a behaviour with these states over an environment.
    pub(crate) fn over(states: &NameTable, env: &Environment) -> Cells
        requires { length states.now ≤ MAX_STATES }
        ensures states { result.states ≡ length states.now }
        ensures env_states { result.env_states ≡ env.now.env.states }
        ensures actions { result.actions ≡ env.now.env.actions }
    {
        Cells {
            states: states.len() as usize,
            env_states: env.states().len() as usize,
            actions: env.actions().len() as usize,
        }
    }

    pub(crate) fn count(&self) -> usize
        ensures count { result ≡ self.now.states * self.now.env_states * self.now.actions }
        ensures small { result ≤ 2 ^ 17 }
    {
        self.states * self.env_states * self.actions
    }

    /// Returns the number of the cell of a state, an environment state and an action.
    pub(crate) fn at(&self, b: u8, e: u8, a: u8) -> usize
        requires state { b < self.now.states }
        requires env_state { e < self.now.env_states }
        requires action { a < self.now.actions }
        ensures place { result ≡ (b * self.now.env_states + e) * self.now.actions + a }
        ensures within { result < self.now.states * self.now.env_states * self.now.actions }
    {
        (b as usize * self.env_states + e as usize) * self.actions + a as usize
    }
}
