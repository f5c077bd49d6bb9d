//! Laws for readers about the turns of sessions. No crate depends on this one. Each law is the contract
//! of a function that computes nothing.
//!
//! `specs/Alike` has states that differ at most in the starting states of their parts, and
//! `specs/Resumed` has sessions that continue in a library of the present states. `specs/Fixed`
//! states which results of a turn are determined. `specs/Calm` has stretches of a session without a
//! change. `specs/Present` has the states that sessions reach and the documents that begin in them,
//! and `specs/Losses` the loss of services.
#![tactic(auto)]

ghost use Rattle.roman_turn_laws.specs.Calm.{CalmStretchesStay};
ghost use Rattle.roman_turn_laws.specs.Fixed.{ResumedSayAlike, SessionsAreFixed, TurnsAreFixed};
ghost use Rattle.roman_turn_laws.specs.Losses.{TurnsNeverGain};
ghost use Rattle.roman_turn_laws.specs.Present.{PresentIsSaid, PresentTargetsAreSaid};
ghost use Rattle.roman_turn_laws.specs.Resumed.{OpenIsTakenUp, SessionsResume, TurnsAreAlike};

use roman_document_laws::{accepted_can_be_said, accepted_names_are_clear, parts_are_said};
use roman_hearing::reports_are_fixed;
use roman_laws::losing_never_helps;
use roman_library::targets_are_combined;
use roman_text::spell_events;

/// No turn depends on the starting states of its parts. A session that is interrupted between two
/// requests can be resumed. In the library that has the services now present and begins in the
/// present states, the same lines have turns with the same texts, and conversely. To resume an open
/// request, the session requests it again there, and delegates it to its delegate again.
#[tactic(auto, using(crate::proofs::ResumedLemmas::turns_alike, crate::proofs::ResumedLemmas::sessions_resume, crate::proofs::ResumedLemmas::open_taken_up))]
pub fn sessions_can_be_resumed()
    ensures turns { TurnsAreAlike }
    ensures resume { SessionsResume }
    ensures open { OpenIsTakenUp }
{}

/// In a session of an accepted document, two turns of one event from one state lead to one state,
/// and their texts are equal, except for the split of `kept` and `added` and for the entries of an
/// explanation. So any two lists of turns of the same lines go through the same states. A session
/// that continues and one that was resumed give the same answers, line by line.
pub fn answers_are_fixed()
    ensures fixed { TurnsAreFixed }
    ensures sessions { SessionsAreFixed }
    ensures alike { ResumedSayAlike }
{
    reports_are_fixed();
    spell_events();
    accepted_names_are_clear();
}

/// For each state that a session of an accepted document reaches, there is a document that begins
/// in it. The written value of the library with the services then present and the states then
/// current means that library, which is within its limit. With several targets each of them begins
/// in its own state, and the rest of their combination doesn't depend on their starting states.
pub fn present_states_are_said()
    ensures said { PresentIsSaid }
    ensures targets { PresentTargetsAreSaid }
{
    accepted_can_be_said();
    accepted_names_are_clear();
    parts_are_said();
    targets_are_combined();
}

/// In each state that a session of an accepted document reaches, a freeze leads to a related pair only
/// from a related one. So does a death, if the service that dies is loose or in a final state. A thaw
/// leads from a related pair to a related one.
pub fn losses_never_help()
    ensures never { TurnsNeverGain }
{
    accepted_names_are_clear();
    losing_never_helps();
}

/// A stretch of a session without a change may follow any changes. If the current pair is related
/// when the stretch begins, as `report` states, it is related before and after each turn of the
/// stretch. Then each allowed request is served, and if the target is final, so is each service
/// that rests.
#[tactic(auto, using(crate::proofs::CalmLemmas::calm_stretches))]
pub fn calm_stretches_stay()
    ensures stays { CalmStretchesStay }
{}
