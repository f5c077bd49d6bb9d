//! Checks events. Each call returns what its event names, or the first refusal that applies.
ghost use Rattle.std.specs.Prelude.{◌≡◌, ◌<◌, length, IfOk};
ghost use Rattle.roman_text.specs.Shapes.{request, delegate, observe, abort, jump, jump_env};
ghost use Rattle.roman_session.specs.Situations.{present_system, IsPhase, IsStateAt};
ghost use Rattle.roman_session.specs.States.{IsGreat, MayRequest};
ghost use Rattle.roman_session.specs.Words.{IsReady};
ghost use Rattle.roman_session.specs.Steps.{shown};
ghost use Rattle.roman_session.specs.Changes.{event_of};
ghost use Rattle.roman_session.specs.Rules.{ChecksEvent, Tests, CanRequest, CanDelegate, CanObserve, CanJump, CanJumpEnv, CanChangeService, CanJoin, IsNewcomer, join_of};

use super::Session;
use super::naming::place;
use crate::events::{Delegation, JoinWords, Joining, Jump, ServiceChange};
use crate::phase::Phase;
use roman_generator::Observation;
use roman_joint::Seat;
use roman_read::Name;
use roman_text::Reply;

impl Session {
    /// Returns the action that `do` requests, or its first refusal.
    pub(super) fn check_request(&self, action: &[u8]) -> Result<u8, Reply>
        ensures { ChecksEvent self.now (request action.now) (CanRequest self.now action.now) result }
    {
        let a = place(self.joint().environment().actions(), action)?;
        if !self.is_idle() {
            return Err(Reply::ErrorBusy);
        }
        if !self.is_great() {
            return Err(Reply::NoComposition);
        }
        if !self.may_request(a) {
            return Err(Reply::NotAllowed);
        }
        Ok(a)
    }

    /// Returns the action that `use` delegates and the service that it names, or its first refusal.
    pub(super) fn check_delegate(&self, service: &[u8]) -> Result<Delegation, Reply>
        ensures checks { ChecksEvent self.now (delegate service.now) (CanDelegate self.now service.now) result }
        ensures seat { IfOk result (λ x. x.seat < length self.now.parts.seats) }
    {
        let seat = self.service_place(service)?;
        let Phase::Offered(action) = self.phase else {
            return Err(Reply::ErrorIdle);
        };
        if !self.is_offered(action, seat) {
            return Err(Reply::NotOffered);
        }
        Ok(Delegation { action, seat })
    }

    /// Returns the delegation and the states that `saw` names, or its first refusal. Doesn't check
    /// whether the outcome is possible.
    #[tactic(auto, using(crate::proofs::SituationLemmas::offered_within))]
    pub(super) fn check_observe(&self, state: &[u8], env: &[u8]) -> Result<Observation, Reply>
        ensures checks { ChecksEvent self.now (observe state.now env.now)
            (CanObserve self.now state.now env.now) result }
        ensures phase { IfOk result (λ x. IsPhase self.now (Phase.Delegated x.action x.seat)) }
    {
        self.known(); // the situation is well formed
        let Phase::Delegated(action, seat) = self.phase() else {
            return Err(Reply::ErrorIdle);
        };
        let state = self.state_place(seat, state)?;
        let env = self.env_place(env)?;
        Ok(Observation {
            action,
            seat,
            state,
            env,
        })
    }

    /// Succeeds if a request is open, which `abort` gives up. Returns the refusal otherwise.
    pub(super) fn check_abort(&self) -> Result<(), Reply>
        ensures { ChecksEvent self.now abort (λ _. self.now.phase ≡ Phase.Idle → ⊥) result }
    {
        if self.is_idle() {
            return Err(Reply::ErrorIdle);
        }
        Ok(())
    }

    /// Returns the service and the state that `jump` names, or its first refusal.
    pub(super) fn check_jump(&self, service: &[u8], state: &[u8]) -> Result<Jump, Reply>
        ensures checks { ChecksEvent self.now (jump service.now state.now)
            (CanJump self.now service.now state.now) result }
        ensures seat { IfOk result (λ x. x.seat < length self.now.parts.seats) }
        ensures state { IfOk result (λ x. IsStateAt self.now x.seat x.state) }
    {
        let seat = self.service_place(service)?;
        let state = self.state_place(seat, state)?;
        if !self.is_idle() {
            return Err(Reply::ErrorBusy);
        }
        Ok(Jump { seat, state })
    }

    /// Returns the environment state that `jumpenv` names, or its first refusal.
    pub(super) fn check_jump_env(&self, env: &[u8]) -> Result<u8, Reply>
        ensures checks { ChecksEvent self.now (jump_env env.now) (CanJumpEnv self.now env.now) result }
        ensures within { IfOk result (λ e. e < (present_system self.now).env.states) }
    {
        let env = self.env_place(env)?;
        if !self.is_idle() {
            return Err(Reply::ErrorBusy);
        }
        Ok(env)
    }

    /// Returns the place of the service that `freeze`, `thaw` or `die` names, or its first refusal.
    pub(super) fn check_change(&self, change: ServiceChange, service: &[u8]) -> Result<u8, Reply>
        ensures checks { ChecksEvent self.now (event_of change service.now)
            (CanChangeService change self.now service.now) result }
        ensures within { IfOk result (λ k. k < length self.now.parts.seats) }
    {
        let seat = self.service_place(service)?;
        if !self.is_idle() {
            return Err(Reply::ErrorBusy);
        }
        match change {
            ServiceChange::Freeze if !self.is_ready(seat) => Err(Reply::ErrorFrozen),
            ServiceChange::Thaw if self.is_ready(seat) => Err(Reply::ErrorReady),
            _ => Ok(seat),
        }
    }

    /// Returns the service that `join` adds with its state, or its first refusal. Doesn't check
    /// whether there is room for it.
    pub(super) fn check_join(&self, words: JoinWords<'_>) -> Result<Joining, Reply>
        ensures checks { ChecksEvent self.now (join_of words.entry) (CanJoin self.now words.entry) result }
        ensures within { IfOk result (IsNewcomer self.now.parts) }
    {
        let Some(name) = Name::new(words.service) else {
            return Err(Reply::ErrorName);
        };
        let behaviour = self.behaviour_place(words.behaviour)?;
        let state = self.behaviour_state(behaviour, words.state)?;
        if !self.is_idle() {
            return Err(Reply::ErrorBusy);
        }
        if self.service_place(words.service).is_ok() {
            return Err(Reply::ErrorTaken);
        }
        let seat = Seat {
            name,
            behaviour,
            frozen: false,
            rests: !words.loose,
        };
        Ok(Joining { seat, state })
    }

    #[tactic(auto, using(crate::proofs::RuleLemmas::ready_tests))]
    fn is_ready(&self, k: u8) -> bool
        requires { k < length self.now.parts.seats }
        ensures { Tests result (IsReady (shown self.now) k) }
    {
        !self.joint().seat(k).frozen
    }

    /// Returns whether the current pair is related.
    #[tactic(auto, using(crate::proofs::RuleLemmas::great_tests))]
    pub(super) fn is_great(&self) -> bool
        ensures { Tests result (IsGreat (shown self.now)) }
    {
        self.known(); // the situation is well formed
        self.composes()
    }

    /// Returns whether the target allows the action `a` at the current pair.
    #[tactic(auto, using(crate::proofs::RuleLemmas::may_tests))]
    fn may_request(&self, a: u8) -> bool
        requires { a < (present_system self.now).env.actions }
        ensures { Tests result (MayRequest (shown self.now) a) }
    {
        self.known(); // the situation is well formed
        self.allows(a)
    }
}
