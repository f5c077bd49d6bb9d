//! Freezes, thaws, removes and adds services.
ghost use Rattle.std.specs.Prelude.{◌≡◌, vec_capacity};
ghost use Rattle.roman_io.specs.SinkCalls.{FailsWith};
ghost use Rattle.roman_text.specs.Replies.{reply_text};
ghost use Rattle.roman_session.specs.Changes.{event_of, states_after};
ghost use Rattle.roman_session.specs.Rules.{CanChangeAt, IsChangedAt, Joins, IsNewcomer, join_of};
ghost use Rattle.roman_session.specs.Answering.{DoesOn};

use super::{Session, number_of};
use crate::events::{JoinWords, Joining, ServiceChange};
use crate::phase::Phase;
use roman_io::{Failed, Sink, Steps};
use roman_relation::Relation;
use roman_repair::{JoinError, Tally, die, freeze, join, thaw};
use roman_text::{Page, Reply};
use std::sync::ledger::Ledger;

/// Returns the reply that counts the entries that a repair kept and added.
fn kept(tally: Tally) -> Reply
    ensures { result ≡ Reply.Kept tally.kept tally.added }
{
    Reply::Kept {
        kept: tally.kept,
        added: tally.added,
    }
}

/// Changes the service at place `k` in a relation and in the states of the services.
fn change_service<L: Ledger>(
    relation: &mut Relation,
    states: &mut Vec<u8>,
    change: ServiceChange,
    k: u8,
    steps: &mut Steps<L>,
) -> Tally
    requires { CanChangeAt change k relation.old states.old.items }
    ensures relation { IsChangedAt change k relation.old relation.new result }
    ensures states { states.new.items ≡ states_after change states.old.items k }
    ensures room { vec_capacity states.new ≡ vec_capacity states.old }
{
    match change {
        ServiceChange::Freeze => freeze(relation, k, steps),
        ServiceChange::Thaw => thaw(relation, k, steps),
        ServiceChange::Die => {
            let _state = states.remove(k as usize);
            die(relation, k, steps)
        }
    }
}

#[tactic(auto, using(crate::proofs::AnswerLemmas::done))]
impl Session {
    /// Answers `freeze S`, `thaw S` or `die S`, and pushes the reply on a page. A refusal changes
    /// nothing.
    pub(super) fn answer_change<O: Sink, L: Ledger>(
        &mut self,
        change: ServiceChange,
        service: &[u8],
        page: &mut Page,
        out: &mut O,
        steps: &mut Steps<L>,
    ) -> Result<(), Failed>
        ensures step { DoesOn O.Sink self.old (event_of change service.now)
            self.new out.old out.new page.old page.new result }
        ensures cause { FailsWith O.Sink out.old out.new result }
    {
        let k = match self.check_change(change, service) {
            Ok(k) => k,
            Err(refusal) => return page.push_reply(&refusal, out),
        };
        let tally = change_service(&mut self.relation, &mut self.states, change, k, steps);
        self.relation.joint.known(); // the system is well formed
        self.number = number_of(&self.relation.joint, self.target, self.env, &self.states);
        page.push_reply(&kept(tally), out)
    }

    /// Answers `join S B STATE` or `join S B STATE loose`, and pushes the reply on a page. A
    /// refusal changes nothing.
    pub(super) fn answer_join<O: Sink, L: Ledger>(
        &mut self,
        words: JoinWords<'_>,
        page: &mut Page,
        out: &mut O,
        steps: &mut Steps<L>,
    ) -> Result<(), Failed>
        ensures step { DoesOn O.Sink self.old (join_of words.entry) self.new out.old out.new page.old page.new result }
        ensures cause { FailsWith O.Sink out.old out.new result }
    {
        let joining = match self.check_join(words) {
            Ok(joining) => joining,
            Err(refusal) => return page.push_reply(&refusal, out),
        };
        page.push_reply(&self.join_seat(joining, steps), out)
    }

    /// Adds a service, or returns the refusal if there are too many services or cells. Requires
    /// the phase `Idle`.
    fn join_seat<L: Ledger>(&mut self, joining: Joining, steps: &mut Steps<L>) -> Reply
        requires idle { self.old.phase ≡ Phase.Idle }
        requires can { IsNewcomer self.old.parts joining }
        ensures { Joins self.old joining (reply_text result) self.new }
    {
        match join(&mut self.relation, joining.seat, steps) {
            Ok(tally) => {
                self.relation.joint.known(); // the system is well formed
                self.states.push_reserved(joining.state);
                self.number = number_of(&self.relation.joint, self.target, self.env, &self.states);
                kept(tally)
            }
            Err(JoinError::Full) => Reply::ErrorFull,
            Err(JoinError::Limit) => Reply::ErrorLimit,
        }
    }
}
