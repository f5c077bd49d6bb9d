//! The names of states, actions and services.
ghost use Rattle.std.specs.Prelude.{◌≡◌, ◌<◌, length};
ghost use Rattle.roman_model.specs.Explanation.{name_at, seat_names};
ghost use Rattle.roman_joint.specs.NamedSys.{system_of};
ghost use Rattle.roman_joint.specs.Names.{names_in};
ghost use Rattle.roman_joint.specs.Pairs.{seat_states, joint_actions};

use super::Joint;
use roman_parts::Name;

impl Joint {
    /// Returns the name of the target's state `t`.
    pub fn target_name(&self, t: u8) -> &Name
        requires { t < (system_of self.now).target.states }
        ensures { result.now ≡ name_at (names_in self.now).target t }
    {
        self.target().states().at(u32::from(t))
    }

    /// Returns the name of the environment's state `e`.
    pub fn env_name(&self, e: u8) -> &Name
        requires { e < (system_of self.now).env.states }
        ensures { result.now ≡ name_at (names_in self.now).env e }
    {
        self.environment().states().at(u32::from(e))
    }

    /// Returns the name of the action `a`.
    pub fn action_name(&self, a: u8) -> &Name
        requires { a < joint_actions self.now }
        ensures { result.now ≡ name_at (names_in self.now).actions a }
    {
        self.environment().actions().at(u32::from(a))
    }

    /// Returns the name of the service at place `k`.
    pub fn service_name(&self, k: u8) -> &Name
        requires { k < length self.now.seats }
        ensures { result.now ≡ (seat_names (names_in self.now) k).service }
    {
        &self.seat(k).name
    }

    /// Returns the name of the state `b` of the service at place `k`.
    pub fn state_name(&self, k: u8, b: u8) -> &Name
        requires seat { k < length self.now.seats }
        requires state { b < seat_states self.now k }
        ensures { result.now ≡ name_at (seat_names (names_in self.now) k).states b }
    {
        self.known(); // behaviours are over the environment
        self.behaviour(k).states().at(u32::from(b))
    }
}
