//! The replies to lines.
ghost use Rattle.std.specs.Prelude.{◌≡◌, ◌++◌, Ok};
ghost use Rattle.roman_io.specs.SinkCalls.{FailsWith};
ghost use Rattle.roman_text.specs.Shapes.{explain, shape_of_event};
ghost use Rattle.roman_session.specs.States.{IsGreat};
ghost use Rattle.roman_session.specs.Steps.{shown, explanation_of};
ghost use Rattle.roman_session.specs.Answering.{AnswersTo, NamesSome, ObservedStaysGreat, HasPhase, next_after, AnswersOn, DoesOn, IsNextOf};
ghost use Rattle.roman_text.specs.Pages.{Pushes};

use super::Session;
use crate::events::JoinWords;
use crate::events::ServiceChange::{Die, Freeze, Thaw};
use crate::next::Next;
use roman_cert::write_slice;
use roman_io::{Failed, Sink, Steps};
use roman_text::{Event, Page, Reply, parse_line};
use std::sync::ledger::Ledger;

fn next_after(event: Event<'_>) -> Next
    ensures { result ≡ next_after (Ok (shape_of_event event.entry)) }
{
    match event {
        Event::Quit => Next::Quit,
        _ => Next::More,
    }
}

impl Session {
    /// Answers a line: any bytes without a newline. Changes the session by the line's event, and
    /// writes the whole reply before it returns. A refused line changes nothing. Returns `Quit`
    /// exactly when the line is `quit`. Allocates no memory. An `offer` names a service, and after
    /// a possible outcome the current pair is related.
    ///
    /// Fails only when the sink's count of faults rose. The session has then changed as without the
    /// failure, and a prefix of the reply was written.
    #[tactic(auto, using(crate::proofs::StepLemmas::requests_offered))]
    pub fn answer<O: Sink, L: Ledger>(
        &mut self,
        line: &[u8],
        out: &mut O,
        steps: &mut Steps<L>,
    ) -> Result<Next, Failed>
        ensures step { AnswersTo O.Sink self.old line.now self.new out.old out.new result }
        ensures next { IsNextOf line.now result }
        ensures cause { FailsWith O.Sink out.old out.new result }
        ensures offered { NamesSome self.old }
        ensures related { ObservedStaysGreat self.old line.now self.new }
        ensures phase { HasPhase self.new }
    {
        self.known(); // the situation is well formed
        let mut page = Page::new();
        let answered = self.answer_on(line, &mut page, out, steps);
        self.known(); // the situation is well formed
        let next = answered?;
        page.flush(out)?;
        Ok(next)
    }

    /// Answers a line as [`Session::answer`] does, but pushes the reply on a page. Writes to the
    /// sink only if the page has no room for the reply. Allocates no memory.
    ///
    /// Fails only when the sink's count of faults rose. The session has then changed as without the
    /// failure. A prefix of the page's bytes and the reply was written, and the page is empty.
    pub fn answer_on<O: Sink, L: Ledger>(
        &mut self,
        line: &[u8],
        page: &mut Page,
        out: &mut O,
        steps: &mut Steps<L>,
    ) -> Result<Next, Failed>
        ensures step { AnswersOn O.Sink self.old line.now self.new out.old out.new page.old page.new result }
        ensures next { IsNextOf line.now result }
        ensures cause { FailsWith O.Sink out.old out.new result }
    {
        let event = match parse_line(line) {
            Ok(event) => event,
            Err(_) => {
                page.push_reply(&Reply::ErrorLine, out)?;
                return Ok(Next::More);
            }
        };
        self.answer_event(event, page, out, steps)?;
        Ok(next_after(event))
    }

    /// Changes the session by an event, and pushes the reply on a page. Each event has its own
    /// function, because a reply is large, and a function clears the places of all replies that it
    /// may hold.
    #[tactic(auto, using(crate::proofs::AnswerLemmas::done))]
    fn answer_event<O: Sink, L: Ledger>(
        &mut self,
        event: Event<'_>,
        page: &mut Page,
        out: &mut O,
        steps: &mut Steps<L>,
    ) -> Result<(), Failed>
        ensures step { DoesOn O.Sink self.old (shape_of_event event.entry)
            self.new out.old out.new page.old page.new result }
        ensures cause { FailsWith O.Sink out.old out.new result }
    {
        match event {
            Event::Nothing => Ok(()),
            Event::Ask(action) => self.answer_request(action, page, out),
            Event::Hand(service) => self.answer_delegate(service, page, out),
            Event::Saw { state, env } => self.answer_observe(state, env, page, out),
            Event::Abort => self.answer_abort(page, out),
            Event::Jump { service, state } => self.answer_jump(service, state, page, out),
            Event::JumpEnv(env) => self.answer_jump_env(env, page, out),
            Event::Report => {
                self.known(); // the situation is well formed
                self.push_report(page, out)
            }
            Event::Quit => page.push_reply(&Reply::Bye, out),
            Event::Freeze(service) => self.answer_change(Freeze, service, page, out, steps),
            Event::Thaw(service) => self.answer_change(Thaw, service, page, out, steps),
            Event::Die(service) => self.answer_change(Die, service, page, out, steps),
            Event::Join {
                service,
                behaviour,
                state,
                loose,
            } => {
                let words = JoinWords {
                    service,
                    behaviour,
                    state,
                    loose,
                };
                self.answer_join(words, page, out, steps)
            }
            Event::Explain => self.answer_explain(page, out, steps),
        }
    }

    /// Answers `explain`. Pushes a refusal on the page. Writes an explanation to the sink, after
    /// the bytes that the page held.
    #[tactic(auto, using(crate::proofs::AnswerLemmas::done))]
    fn answer_explain<O: Sink, L: Ledger>(
        &mut self,
        page: &mut Page,
        out: &mut O,
        steps: &mut Steps<L>,
    ) -> Result<(), Failed>
        ensures step { DoesOn O.Sink self.old explain self.new out.old out.new page.old page.new result }
        ensures cause { FailsWith O.Sink out.old out.new result }
    {
        self.known(); // the situation is well formed
        if self.is_great() {
            return page.push_reply(&Reply::ErrorRelated, out);
        }
        self.explain(page, out, steps)
    }

    /// Writes the bytes of the page, and then the explanation of the current pair. Requires a
    /// current pair that isn't related.
    fn explain<O: Sink, L: Ledger>(
        &mut self,
        page: &mut Page,
        out: &mut O,
        steps: &mut Steps<L>,
    ) -> Result<(), Failed>
        requires { IsGreat (shown self.old) → ⊥ }
        ensures gathers { Pushes O.Sink out.old out.new page.old page.new (explanation_of self.old) result }
        ensures stays { self.new ≡ self.old }
        ensures cause { FailsWith O.Sink out.old out.new result }
    {
        page.flush(out)?;
        let here = self.here();
        write_slice(&mut self.relation, here, out, steps)
    }
}
