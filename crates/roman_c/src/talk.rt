//! A session with its last reply.
ghost use Rattle.std.specs.Prelude.{◌≡◌, ◌<◌, [], Some};
ghost use Rattle.roman_io.specs.Faults.{HasCause};
ghost use Rattle.roman_io.specs.Sink.{Puts};
ghost use Rattle.roman_c.specs.Answers.{StepsTo, TalkAnswers};
ghost use Rattle.roman_c.specs.Events.{event_line};

use crate::events::{NumberedEvent, event_line};
use crate::refusals::refusal_status;
use roman_io::{Failed, Sink, Steps};
use roman_session::{Next, Session};
use std::alloc::Global;
use std::marker::Brand;
use std::sync::ledger::{Blank, Ledger};

/// The bytes of a reply.
#[derive(Drop)]
pub struct Reply {
    /// The bytes.
    pub bytes: Vec<u8>,
    /// The number of times that memory ran out.
    pub faults: u64,
}

impl Reply {
    pub(crate) fn new(alloc: Global) -> Reply
        ensures { result.bytes.items ≡ [] }
    {
        Reply {
            bytes: Vec::new(alloc),
            faults: 0,
        }
    }
}

impl Sink for Reply {
    ghost written = { λ s. Some s.bytes.items };

    ghost faults = { λ s. s.faults };

    fn put(&mut self, bytes: &[u8]) -> Result<(), Failed>
        ensures puts { Puts (Some self.old.bytes.items) (Some self.new.bytes.items) bytes.now result }
        ensures cause { HasCause self.old.faults self.new.faults result }
    {
        if self.bytes.extend_from_slice(bytes).is_err() {
            self.faults = self.faults.saturating_add(1);
            return Err(Failed);
        }
        Ok(())
    }
}

/// A session, if one is open, and the last reply.
#[derive(Drop)]
pub struct Talk {
    /// The session.
    pub session: Option<Session>,
    /// The last reply, or the line that gives the reason why there is no session.
    pub reply: Reply,
}

impl Talk {
    /// Answers a line. Returns the status of `roman_answer`.
    pub(crate) fn answer(&mut self, line: &[u8]) -> u32
        ensures { TalkAnswers self.old (λ s. line.now) self.new result }
    {
        let Some(session) = &mut self.session else {
            return 2;
        };
        answer(session, &mut self.reply, line)
    }

    /// Answers the line of an event by numbers.
    pub(crate) fn answer_event(&mut self, event: NumberedEvent<'_>) -> u32
        ensures { TalkAnswers self.old (λ s. event_line s event.entry) self.new result }
    {
        let Some(session) = &mut self.session else {
            return 2;
        };
        let line = event_line(session, event);
        answer(session, &mut self.reply, line.bytes())
    }
}

/// Answers a line in place of the last reply. Returns 1 if the line is `quit`, 9 if there was no
/// memory for the whole reply, and otherwise the status of the reply.
fn answer(session: &mut Session, reply: &mut Reply, line: &[u8]) -> u32
    ensures { StepsTo session.old line.now (Some session.new) reply.new.bytes.items result }
{
    answer_counted::<Brand>(session, reply, line, Blank::new(1))
}

/// Answers a line as [`answer`] does, with a counter of steps on `blank`.
fn answer_counted<L: Ledger>(
    session: &mut Session,
    reply: &mut Reply,
    line: &[u8],
    blank: Blank,
) -> u32
    requires name { blank.name ≡ L.name }
    requires parts { blank.parts ≡ L.parts }
    requires some { 0 < L.parts }
    ensures { StepsTo session.old line.now (Some session.new) reply.new.bytes.items result }
{
    reply.bytes.clear();
    let mut steps = Steps::<L>::new(blank);
    match session.answer(line, reply, &mut steps) {
        Ok(Next::More) => refusal_status(&reply.bytes),
        Ok(Next::Quit) => 1,
        Err(Failed) => 9,
    }
}
