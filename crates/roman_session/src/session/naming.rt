//! Looks up names.
ghost use Rattle.std.specs.Prelude.{◌<◌, ◌≤◌, map, length, IfOk};
ghost use Rattle.roman_model.specs.Explanation.{seat_names};
ghost use Rattle.roman_joint.specs.Names.{beh_name, seat_name, names_in, states_of_behaviour};
ghost use Rattle.roman_joint.specs.NamedSys.{beh_at};
ghost use Rattle.roman_session.specs.Situations.{present_system, IsStateAt};
ghost use Rattle.roman_session.specs.Rules.{FindsPlace};

use super::Session;
use roman_library::place_of_behaviour;
use roman_read::NameTable;
use roman_text::Reply;

/// Returns the number of a name in the table, or `ErrorName` if the table lacks it.
#[tactic(auto, using(crate::proofs::NameLemmas::place_there))]
pub(super) fn place(names: &NameTable, name: &[u8]) -> Result<u8, Reply>
    requires { length names.now ≤ 64 }
    ensures finds { FindsPlace names.now name.now result }
    ensures within { IfOk result (λ i. i < length names.now) }
{
    match names.find(name) {
        Some(i) => Ok(i as u8),
        None => Err(Reply::ErrorName),
    }
}

impl Session {
    /// Returns the number of the environment state with this name, or `ErrorName` if there is
    /// none.
    pub(super) fn env_place(&self, name: &[u8]) -> Result<u8, Reply>
        ensures finds { FindsPlace self.now.parts.environment.states name.now result }
        ensures within { IfOk result (λ e. e < (present_system self.now).env.states) }
    {
        place(self.joint().environment().states(), name)
    }

    /// Returns the place of the present service with this name, or `ErrorName` if there is none.
    pub(super) fn service_place(&self, name: &[u8]) -> Result<u8, Reply>
        ensures finds { FindsPlace (map seat_name self.now.parts.seats) name.now result }
        ensures within { IfOk result (λ k. k < length self.now.parts.seats) }
    {
        for k in 0..self.joint().seats() {
            if name == self.joint().seat(k).name.bytes() {
                return Ok(k);
            }
        }
        Err(Reply::ErrorName)
    }

    /// Returns the place of the behaviour with this name in the catalogue, or `ErrorName` if there
    /// is none.
    pub(super) fn behaviour_place(&self, name: &[u8]) -> Result<u8, Reply>
        ensures finds { FindsPlace (map beh_name self.now.parts.catalogue) name.now result }
        ensures within { IfOk result (λ i. i < length self.now.parts.catalogue) }
    {
        match place_of_behaviour(self.relation.joint.catalogue(), name) {
            Some(i) => Ok(i as u8),
            None => Err(Reply::ErrorName),
        }
    }

    /// Returns the number of the state with this name of the behaviour at place `i` of the
    /// catalogue, or `ErrorName` if there is none.
    pub(super) fn behaviour_state(&self, i: u8, name: &[u8]) -> Result<u8, Reply>
        requires { i < length self.now.parts.catalogue }
        ensures finds { FindsPlace (states_of_behaviour self.now.parts.catalogue i) name.now result }
        ensures within { IfOk result (λ b. b < (beh_at self.now.parts.catalogue i).states) }
    {
        place(self.joint().catalogue()[i as usize].states(), name)
    }

    /// Returns the number of the state with this name of the service at place `k`, or `ErrorName`
    /// if there is none.
    pub(super) fn state_place(&self, k: u8, name: &[u8]) -> Result<u8, Reply>
        requires { k < length self.now.parts.seats }
        ensures finds { FindsPlace (seat_names (names_in self.now.parts) k).states name.now result }
        ensures within { IfOk result (λ b. IsStateAt self.now k b) }
    {
        self.known(); // behaviours are over the environment
        place(self.joint().behaviour(k).states(), name)
    }
}
