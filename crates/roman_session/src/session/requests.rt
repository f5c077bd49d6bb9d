//! Requests, delegations and their outcomes.
ghost use Rattle.roman_text.specs.Shapes.{request, delegate, observe, abort};
ghost use Rattle.roman_io.specs.SinkCalls.{FailsWith};
ghost use Rattle.roman_session.specs.Answering.{DoesOn};

use super::Session;
use crate::events::Delegation;
use crate::phase::Phase;
use roman_generator::next_target;
use roman_io::{Failed, Sink};
use roman_text::{Page, Reply};

#[tactic(auto, using(crate::proofs::AnswerLemmas::done, crate::proofs::SituationLemmas::offered_within))]
impl Session {
    /// Answers `do A`, and pushes the reply on a page. A refusal changes nothing.
    pub(super) fn answer_request<O: Sink>(
        &mut self,
        action: &[u8],
        page: &mut Page,
        out: &mut O,
    ) -> Result<(), Failed>
        ensures step { DoesOn O.Sink self.old (request action.now) self.new out.old out.new page.old page.new result }
        ensures cause { FailsWith O.Sink out.old out.new result }
    {
        let a = match self.check_request(action) {
            Ok(a) => a,
            Err(refusal) => return page.push_reply(&refusal, out),
        };
        self.known(); // the situation is well formed
        self.offer(a);
        self.push_offered(a, page, out)
    }

    /// Answers `use S`, and pushes the reply on a page. A refusal changes nothing.
    pub(super) fn answer_delegate<O: Sink>(
        &mut self,
        service: &[u8],
        page: &mut Page,
        out: &mut O,
    ) -> Result<(), Failed>
        ensures step { DoesOn O.Sink self.old (delegate service.now) self.new out.old out.new page.old page.new result }
        ensures cause { FailsWith O.Sink out.old out.new result }
    {
        let Delegation { action, seat } = match self.check_delegate(service) {
            Ok(delegation) => delegation,
            Err(refusal) => return page.push_reply(&refusal, out),
        };
        self.known(); // the situation is well formed
        let pushed = page.push_using(&self.joint().seat(seat).name, out);
        self.set_phase(Phase::Delegated(action, seat));
        pushed
    }

    /// Answers `abort`, and pushes the reply on a page. A refusal changes nothing.
    pub(super) fn answer_abort<O: Sink>(
        &mut self,
        page: &mut Page,
        out: &mut O,
    ) -> Result<(), Failed>
        ensures step { DoesOn O.Sink self.old abort self.new out.old out.new page.old page.new result }
        ensures cause { FailsWith O.Sink out.old out.new result }
    {
        if let Err(refusal) = self.check_abort() {
            return page.push_reply(&refusal, out);
        }
        self.set_phase(Phase::Idle);
        page.push_reply(&Reply::Aborted, out)
    }

    /// Answers `saw B E`, and pushes the reply on a page. A refusal changes nothing.
    pub(super) fn answer_observe<O: Sink>(
        &mut self,
        state: &[u8],
        env: &[u8],
        page: &mut Page,
        out: &mut O,
    ) -> Result<(), Failed>
        ensures step { DoesOn O.Sink self.old (observe state.now env.now)
            self.new out.old out.new page.old page.new result }
        ensures cause { FailsWith O.Sink out.old out.new result }
    {
        let observation = match self.check_observe(state, env) {
            Ok(observation) => observation,
            Err(refusal) => return page.push_reply(&refusal, out),
        };
        self.known(); // the situation is well formed
        let joint = &self.relation.joint;
        let Some(to) = next_target(joint, self.target, self.env, &self.states, observation) else {
            return page.push_reply(&Reply::Impossible, out);
        };
        self.move_to(to, observation.env, observation.seat, observation.state);
        page.push_now(self.target_name(), self.env_name(), out)
    }
}
