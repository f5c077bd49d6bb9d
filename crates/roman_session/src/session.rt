//! The parts of a session, and the calls that read them.
ghost use Rattle.std.specs.Prelude.{◌≡◌, ◌≢◌, ℕ, ◌<◌, length, Some, slice_get, slice_index};
ghost use Rattle.roman_model.specs.System.{IsPair, has};
ghost use Rattle.roman_model.specs.SystemArena.{pairs, is_allowed};
ghost use Rattle.roman_model.specs.System as model;
ghost use Rattle.roman_model.specs.Numbers.{sizes_of, count, number, pair_at};
ghost use Rattle.roman_model.specs.Explanation.{name_at};
ghost use Rattle.roman_model.specs.Offers.{is_related, offers, related_count};
ghost use Rattle.roman_radix.specs.Radix.{moved};
ghost use Rattle.roman_rules.specs.Bits.{HasBits};
ghost use Rattle.roman_joint.specs.NamedSys as named;
ghost use Rattle.roman_relation.specs.Greatest.{IsRelation};
ghost use Rattle.roman_session.specs.Situations.{Situation, present_system, IsOpen, IsPhase, IsSituation};
ghost use Rattle.roman_session.specs.States.{ServesHere};
ghost use Rattle.roman_session.specs.Steps.{shown};
ghost use Rattle.roman_session.specs.Rules.{Tests};

mod answering;
mod building;
mod changes;
mod checks;
mod jumps;
mod naming;
mod reports;
mod requests;

use crate::phase::Phase;
use roman_generator::offers;
use roman_joint::Joint;
use roman_read::Name;
use roman_relation::Relation;
use roman_rules::SeatSet;
use std::marker::Model;

/// One session. Holds the services now present with the greatest relation of their system, the
/// present states, and the open request. Contracts see it as a situation, whose removal list is
/// complete.
pub struct Session {
    relation: Relation,
    // the states of the target, of the environment and of the services
    target: u8,
    env: u8,
    // Has room for the greatest number of services.
    states: Vec<u8>,
    // the number of the current pair
    number: u32,
    phase: Phase,
    // the offered services, while an open request has no delegate
    mask: SeatSet,
}

// One proof step. A derived drop is a step for each vector, at each exit of a function that owns it.
impl Drop for Session {
    fn drop(self) {
        let Session {
            relation: _,
            target: _,
            env: _,
            states: _,
            number: _,
            phase: _,
            mask: _,
        } = self;
    }
}

impl Model for Session {
    ghost use Rattle.roman_session.specs.Situations.{Situation};

    ghost Value = { Situation };

    ghost use Rattle.roman_session.specs.Layout.{situation_in, IsSession};

    ghost view = { situation_in };

    ghost invariant = { IsSession };
}

fn number_of(joint: &Joint, t: u8, e: u8, states: &[u8]) -> u32
    requires { IsPair (named.system_of joint.now) (record { t = t; e = e; bs = states.now }) }
    ensures { result ≡ number (sizes_of (named.system_of joint.now)) (record { t = t; e = e; bs = states.now }) }
{
    joint.shape().number(t, e, states)
}

impl Session {
    /// Returns the number of pairs of the system with the services now present.
    pub fn pairs(&self) -> u32
        ensures { result ≡ length (pairs (present_system self.now)) }
    {
        self.joint().shape().pairs()
    }

    /// Returns the number of related pairs of the system with the services now present.
    pub fn related(&self) -> u32
        ensures { result ≡ related_count (present_system self.now) }
    {
        self.relation().count()
    }

    /// Returns whether a composition exists from the current pair: whether the pair is related.
    pub fn composes(&self) -> bool
        ensures { result ≡ is_related (present_system self.now) self.now.here }
    {
        self.known(); // the situation is well formed
        self.relation().related(self.here())
    }

    /// Returns the phase. While a request is open, the current pair is related, and the target
    /// allows the action there. The delegate is one of the services that are offered for the
    /// action.
    pub fn phase(&self) -> Phase
        ensures phase { result ≡ self.now.phase }
        ensures holds { IsPhase self.now result }
    {
        self.phase
    }

    /// Does nothing. Its contract states that the situation is well formed.
    pub fn known(&self)
        ensures { IsSituation self.now }
    {
        let _phase = self.phase;
    }

    /// Does nothing. Its contract states that each environment state has a name.
    pub fn names_environment(&self)
        ensures { length self.now.parts.environment.states ≡ self.now.parts.environment.env.states }
    {
        let _names = self.joint().environment().states();
    }

    /// Returns the greatest relation of the system with the services now present.
    fn relation(&self) -> &Relation
        ensures joint { result.now.joint ≡ self.now.parts }
        ensures known { IsRelation result.now.joint result.now.order }
    {
        &self.relation
    }

    /// Returns the system with the services now present.
    pub fn joint(&self) -> &Joint
        ensures { result.now ≡ self.now.parts }
    {
        &self.relation.joint
    }

    /// Returns the number of the current pair.
    fn here(&self) -> u32
        ensures below { result < count (sizes_of (present_system self.now)) }
        ensures pair { pair_at (sizes_of (present_system self.now)) result ≡ self.now.here }
    {
        self.number
    }

    /// Returns the state of the service at place `k`.
    pub fn state(&self, k: u8) -> u8
        requires { k < length self.now.parts.seats }
        ensures value { result ≡ slice_index self.now.here.bs k }
        ensures within { (seat : model.Seat) → slice_get (present_system self.now).seats k ≡ Some seat →
            result < seat.beh.states }
    {
        self.states[k as usize]
    }

    fn allows(&self, a: u8) -> bool
        requires { a < (present_system self.now).env.actions }
        ensures { result ≡ is_allowed (present_system self.now) self.now.here a }
    {
        self.joint().allowed(self.here(), a)
    }

    /// Returns the services that can be offered for the action `a`. Requires a related current pair
    /// at which the target allows the action.
    fn offers(&self, a: u8) -> SeatSet
        requires { IsOpen self.now a }
        ensures { HasBits result (has (offers (present_system self.now) self.now.here a)) }
    {
        offers(self.relation(), self.here(), a)
    }

    /// Returns the services that are offered for the requested action `a`.
    pub fn offered(&self, a: u8) -> SeatSet
        requires { self.now.phase ≡ Phase.Offered a }
        ensures { HasBits result (has (offers (present_system self.now) self.now.here a)) }
    {
        self.mask
    }

    /// Returns whether no request is open.
    fn is_idle(&self) -> bool
        ensures { Tests result (self.now.phase ≡ Phase.Idle) }
    {
        matches!(self.phase, Phase::Idle)
    }

    /// Returns whether the service at place `k` is offered for the requested action `a`: whether it
    /// serves the action.
    fn is_offered(&self, a: u8, k: u8) -> bool
        requires requested { self.now.phase ≡ Phase.Offered a }
        requires seat { k < length self.now.parts.seats }
        ensures { Tests result (ServesHere (shown self.now) a k) }
    {
        self.known(); // there are at most 32 seats
        self.offered(a).has(k)
    }

    /// Returns the number of the target's present state.
    pub fn target_state(&self) -> u8
        ensures { result ≡ self.now.here.t }
    {
        self.target
    }

    /// Returns the number of the environment's present state.
    pub fn env_state(&self) -> u8
        ensures { result ≡ self.now.here.e }
    {
        self.env
    }

    fn target_name(&self) -> &Name
        ensures { result.now ≡ name_at self.now.parts.target.states self.now.here.t }
    {
        self.joint().target_name(self.target)
    }

    fn env_name(&self) -> &Name
        ensures { result.now ≡ name_at self.now.parts.environment.states self.now.here.e }
    {
        self.joint().env_name(self.env)
    }

    /// Sets the phase. Requires a phase that is possible at the current pair, and isn't `Offered`.
    fn set_phase(&mut self, phase: Phase)
        requires phase { IsPhase self.old phase }
        requires chosen { (a : ℕ) → phase ≢ Phase.Offered a }
        ensures { self.new ≡ record self.old { phase = phase } }
    {
        self.phase = phase;
    }

    /// Sets the phase to `Offered` for the action `a`, and keeps the services that are offered for
    /// it.
    fn offer(&mut self, a: u8)
        requires { IsOpen self.old a }
        ensures { self.new ≡ record self.old { phase = Phase.Offered a } }
    {
        self.mask = self.offers(a);
        self.phase = Phase::Offered(a);
    }

    /// Moves the target, the environment and the service at place `k` to the given states. Sets the
    /// phase to `Idle`.
    fn move_to(&mut self, t: u8, e: u8, k: u8, b: u8)
        requires pair { IsPair (present_system self.old) (moved self.old.here t e k b) }
        requires seat { k < length self.old.parts.seats }
        ensures { self.new ≡ record self.old { here = moved self.old.here t e k b; phase = Phase.Idle } }
    {
        self.number = self.relation.joint.shape().moved(self.here(), t, e, k, b);
        self.target = t;
        self.env = e;
        self.states[k as usize] = b;
        self.phase = Phase::Idle;
    }

    /// Moves the environment to the given state. Requires the phase `Idle`.
    fn move_env(&mut self, e: u8)
        requires state { e < (present_system self.old).env.states }
        requires idle { self.old.phase ≡ Phase.Idle }
        ensures { self.new ≡ record self.old { here = record self.old.here { e = e } } }
    {
        self.env = e;
        self.number = number_of(&self.relation.joint, self.target, e, &self.states);
    }
}
