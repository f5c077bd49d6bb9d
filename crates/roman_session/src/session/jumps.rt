//! Moves services and the environment to named states.
ghost use Rattle.roman_text.specs.Shapes.{jump, jump_env};
ghost use Rattle.roman_io.specs.SinkCalls.{FailsWith};
ghost use Rattle.roman_session.specs.Answering.{DoesOn};

use super::Session;
use crate::events::Jump;
use roman_io::{Failed, Sink};
use roman_text::{Page, Reply};

#[tactic(auto, using(crate::proofs::AnswerLemmas::done))]
impl Session {
    /// Answers `jump S STATE`, and pushes the reply on a page. A refusal changes nothing.
    pub(super) fn answer_jump<O: Sink>(
        &mut self,
        service: &[u8],
        state: &[u8],
        page: &mut Page,
        out: &mut O,
    ) -> Result<(), Failed>
        ensures step { DoesOn O.Sink self.old (jump service.now state.now)
            self.new out.old out.new page.old page.new result }
        ensures cause { FailsWith O.Sink out.old out.new result }
    {
        let Jump { seat, state } = match self.check_jump(service, state) {
            Ok(jump) => jump,
            Err(refusal) => return page.push_reply(&refusal, out),
        };
        self.move_to(self.target, self.env, seat, state);
        page.push_reply(&Reply::Jumped, out)
    }

    /// Answers `jumpenv E`, and pushes the reply on a page. A refusal changes nothing.
    pub(super) fn answer_jump_env<O: Sink>(
        &mut self,
        env: &[u8],
        page: &mut Page,
        out: &mut O,
    ) -> Result<(), Failed>
        ensures step { DoesOn O.Sink self.old (jump_env env.now) self.new out.old out.new page.old page.new result }
        ensures cause { FailsWith O.Sink out.old out.new result }
    {
        let env = match self.check_jump_env(env) {
            Ok(env) => env,
            Err(refusal) => return page.push_reply(&refusal, out),
        };
        self.move_env(env);
        page.push_reply(&Reply::Jumped, out)
    }
}
