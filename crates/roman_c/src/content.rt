//! The content of a handle.
ghost use Rattle.std.specs.Prelude.{◌≡◌, ◌≢◌, ◌∷◌, [], None, Some, length, drop, option_copied};
ghost use Rattle.roman_c.specs.Answers.{AnswersEvent, AnswersLine};
ghost use Rattle.roman_c.specs.Contents.{reply_in, session_in, texts_in, IsMissing};
ghost use Rattle.roman_c.specs.Copies.{IsBeginning};
ghost use Rattle.roman_c.specs.Jobs.{HasWorked};
ghost use Rattle.roman_c.specs.Openings.{CanCount, HasBegun};

use crate::events::NumberedEvent;
use crate::jobs::work;
use crate::opening::{Begun, begin};
use crate::shelf::{TextShelf, copy_prefix};
use crate::talk::{Reply, Talk};
use roman_session::Session;
use std::alloc::Global;
use std::sync::ledger::{Blank, Ledger};

/// The content of a handle: a shelf or a session.
#[derive(Drop)]
pub enum Content {
    /// The texts of documents.
    Shelf(TextShelf),
    /// A session with its last reply.
    Talk(Talk),
}

impl Content {
    pub(crate) fn empty_shelf(alloc: Global) -> Content
        ensures texts { texts_in (Some result) ≡ [] }
        ensures session { session_in (Some result) ≡ None }
    {
        Content::Shelf(TextShelf::new(alloc))
    }

    /// Adds a text to a shelf. Returns the status of `roman_add`.
    pub(crate) fn add(&mut self, alloc: Global, name: &str, text: &[u8]) -> u32
        ensures ok { result ≡ 0 → texts_in (Some self.new) ≡ (name.now, text.now) ∷ texts_in (Some self.old) }
        ensures err { result ≢ 0 → texts_in (Some self.new) ≡ texts_in (Some self.old) }
        ensures session { session_in (Some self.new) ≡ session_in (Some self.old) }
    {
        match self {
            Content::Shelf(shelf) => match shelf.add(alloc, name, text) {
                Ok(()) => 0,
                Err(_) => 9,
            },
            Content::Talk(_) => 2,
        }
    }

    /// Begins a session of a document on a shelf.
    pub(crate) fn begin<L: Ledger>(&mut self, alloc: Global, name: &str, blank: Blank) -> Begun
        requires { CanCount L.Ledger blank }
        ensures opens { HasBegun (texts_in (Some self.old)) name.now result }
        ensures missing { result.status ≡ 5 → IsMissing (Some self.old) (Some self.new) }
        ensures texts { texts_in (Some self.new) ≡ texts_in (Some self.old) }
    {
        match self {
            Content::Shelf(shelf) => begin::<L>(alloc, shelf, name, blank),
            Content::Talk(_) => Begun {
                talk: Talk {
                    session: None,
                    reply: Reply::new(alloc),
                },
                status: 5,
            },
        }
    }

    /// Does a job on a document of a shelf. Returns the status of `roman_synth` or `roman_check`.
    pub(crate) fn work<L: Ledger>(
        &mut self,
        alloc: Global,
        name: &str,
        certificate: Option<&str>,
        blank: Blank,
    ) -> Begun
        requires { CanCount L.Ledger blank }
        ensures works { HasWorked (option_copied certificate.entry) (texts_in (Some self.old)) name.now result }
        ensures missing { result.status ≡ 5 → IsMissing (Some self.old) (Some self.new) }
        ensures texts { texts_in (Some self.new) ≡ texts_in (Some self.old) }
    {
        match self {
            Content::Shelf(shelf) => work::<L>(alloc, shelf, name, certificate, blank),
            Content::Talk(_) => Begun {
                talk: Talk {
                    session: None,
                    reply: Reply::new(alloc),
                },
                status: 5,
            },
        }
    }

    /// Answers a line. Returns the status of `roman_answer`.
    pub(crate) fn answer(&mut self, line: &[u8]) -> u32
        ensures { AnswersLine (Some self.old) line.now (Some self.new) result }
    {
        match self {
            Content::Talk(talk) => talk.answer(line),
            Content::Shelf(_) => 2,
        }
    }

    /// Answers the line of an event by numbers.
    pub(crate) fn answer_event(&mut self, event: NumberedEvent<'_>) -> u32
        ensures { AnswersEvent (Some self.old) event.entry (Some self.new) result }
    {
        match self {
            Content::Talk(talk) => talk.answer_event(event),
            Content::Shelf(_) => 2,
        }
    }

    /// Returns the open session, if there is one.
    pub(crate) fn session(&self) -> Option<&Session>
        ensures { option_copied result ≡ session_in (Some self.now) }
    {
        match self {
            Content::Talk(talk) => talk.session.as_ref(),
            Content::Shelf(_) => None,
        }
    }

    /// Copies the last reply from byte `from` on, until it or `into` ends. Returns the length of
    /// the whole reply.
    pub(crate) fn copy_reply(&self, from: usize, into: &mut [u8]) -> usize
        ensures len { result ≡ length (reply_in (Some self.now)) }
        ensures copies { IsBeginning (drop from (reply_in (Some self.now))) into.new }
    {
        let reply = self.reply();
        if from < reply.len() {
            copy_prefix(&reply[from..], into);
        }
        reply.len()
    }

    fn reply(&self) -> &[u8]
        ensures { result.now ≡ reply_in (Some self.now) }
    {
        match self {
            Content::Talk(talk) => &talk.reply.bytes,
            Content::Shelf(_) => &[],
        }
    }
}
