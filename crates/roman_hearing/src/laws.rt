//! Laws over the definitions of sessions. Each is the contract of a function with an empty body.
ghost use Rattle.roman_hearing.specs.Events.{LinesAreRead};
ghost use Rattle.roman_hearing.specs.Known.{StepsStayKnown};
ghost use Rattle.roman_hearing.specs.Laws.{RequestsAreOffered, OutcomesAreRelated, NotOfferedFails, ReportsAreAfresh, ReportsAreFixed, StepsAreTurns, OpenIsGreat};
ghost use Rattle.roman_hearing.specs.Several.{SeveralAreServed};

use roman_text::spell_events;

/// At least one service is offered for each action that the target allows at a related pair.
pub fn requests_are_offered()
    ensures offered { RequestsAreOffered }
{}

/// After an outcome of a delegated request is observed, the current pair is related.
pub fn outcomes_are_related()
    ensures related { OutcomesAreRelated }
{}

/// A service that isn't offered for an allowed action has no outcome, or an outcome whose pair
/// isn't related.
#[tactic(auto, using(crate::proofs::TurnLemmas::not_offered_fails))]
pub fn services_not_offered_fail()
    ensures fails { NotOfferedFails }
{}

/// The report equals the report of a new synthesis from the present services and the present
/// states.
#[tactic(auto, using(roman_session::proofs::CallerLemmas::reports_afresh))]
pub fn reports_are_afresh()
    ensures afresh { ReportsAreAfresh }
{}

/// The meaning of a report fixes its bytes: two texts that report the same state are equal. So a
/// session's report equals that of `synth` for a document whose library has the present services
/// and begins in the present states.
pub fn reports_are_fixed()
    ensures fixed { ReportsAreFixed }
{}

/// Each step from a well-formed situation leads to a well-formed situation.
#[tactic(auto, using(crate::proofs::KnownLemmas::steps_known))]
pub fn steps_stay_known()
    ensures known { StepsStayKnown }
{}

/// A line is read as the event that its words spell. It is read as no event if it has no words or
/// is a comment. Every other line, and every line of more than 256 bytes, is read as an error.
#[tactic(auto, using(crate::proofs::EventLemmas::lines_read))]
pub fn lines_are_read()
    ensures read { LinesAreRead }
{
    spell_events();
}

/// Each step is a turn: it leads to the state of its event, and its text answers that event. State
/// and text are defined in terms of the greatest ND-simulation, steps and names, without the
/// removal list.
#[tactic(auto, using(crate::proofs::TurnLemmas::steps_turns))]
pub fn steps_are_turns()
    ensures turns { StepsAreTurns }
{}

/// An open request can be served, and its delegate is a service that serves it.
#[tactic(auto, using(crate::proofs::TurnLemmas::open_great))]
pub fn open_is_great()
    ensures great { OpenIsGreat }
{}

/// In a session of a document with several targets a pair is related exactly when it belongs to
/// some ND-simulation of all targets by the services now present.
pub fn several_are_served()
    ensures served { SeveralAreServed }
{}
