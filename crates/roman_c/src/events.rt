//! The lines of events that are given by numbers.
ghost use Rattle.std.specs.Prelude.{◌≡◌, ◌≤◌, ◌+◌, ◌++◌, length};
ghost use Rattle.roman_c.specs.Events.{event_line, join_line, name_or_plus, named_by, or_plus, named_by_delegate};

use crate::names::{Kind, name_of};
use roman_read::Name;
use roman_session::{Phase, Session};
use roman_text::Piece;

/// An event whose names are given by numbers.
#[derive(Clone, Copy)]
pub enum NumberedEvent<'a> {
    /// `do` with the action of that number.
    Request(u32),
    /// `use` with the service at that place.
    Delegate(u32),
    /// `saw` with that state of the delegate, and that of the environment.
    Observe(u32, u32),
    /// `freeze` with the service at that place.
    Freeze(u32),
    /// `thaw` with the service at that place.
    Thaw(u32),
    /// `die` with the service at that place.
    Die(u32),
    /// `jump` with the service at that place, and that state of it.
    Jump(u32, u32),
    /// `jumpenv` with that state of the environment.
    JumpEnv(u32),
    /// `join`.
    Join {
        /// The new service's name.
        name: &'a [u8],
        /// The place of its behaviour in the catalogue.
        behaviour: u32,
        /// The state in which it joins.
        state: u32,
        /// Whether the service never needs to be in a final state.
        loose: bool,
    },
}

/// Returns the line of an event. A number out of range gives `+`, which isn't a valid name.
pub(crate) fn event_line(session: &Session, event: NumberedEvent<'_>) -> Piece
    ensures { result ≡ event_line session.now event.entry }
{
    match event {
        NumberedEvent::Request(action) => named_by(
            Piece::new().text(b"do"),
            session,
            Kind::Action,
            action,
        ),
        NumberedEvent::Delegate(service) => {
            named_by(Piece::new().text(b"use"), session, Kind::Service, service)
        }
        NumberedEvent::Observe(state, env) => named_by(
            named_by_delegate(Piece::new().text(b"saw"), session, state),
            session,
            Kind::EnvState,
            env,
        ),
        NumberedEvent::Freeze(service) => {
            named_by(
                Piece::new().text(b"freeze"),
                session,
                Kind::Service,
                service,
            )
        }
        NumberedEvent::Thaw(service) => {
            named_by(Piece::new().text(b"thaw"), session, Kind::Service, service)
        }
        NumberedEvent::Die(service) => named_by(
            Piece::new().text(b"die"),
            session,
            Kind::Service,
            service,
        ),
        NumberedEvent::Jump(service, state) => named_by(
            named_by(Piece::new().text(b"jump"), session, Kind::Service, service),
            session,
            Kind::ServiceState(service),
            state,
        ),
        NumberedEvent::JumpEnv(env) => named_by(
            Piece::new().text(b"jumpenv"),
            session,
            Kind::EnvState,
            env,
        ),
        NumberedEvent::Join {
            name,
            behaviour,
            state,
            loose,
        } => join_line(session, name, behaviour, state, loose),
    }
}

/// Returns the line by which a service joins.
fn join_line(session: &Session, name: &[u8], behaviour: u32, state: u32, loose: bool) -> Piece
    ensures { result ≡ join_line session.now name.now behaviour state loose }
{
    let line = Piece::new().text(b"join ").text(name_or_plus(name));
    let line = named_by(line, session, Kind::Behaviour, behaviour);
    let line = named_by(line, session, Kind::BehaviourState(behaviour), state);
    line.text(if loose { b" loose" } else { b"" })
}

/// Appends a space and the name of that kind and number.
fn named_by(line: Piece, session: &Session, kind: Kind, number: u32) -> Piece
    requires { length line ≤ 95 }
    ensures text { result ≡ line ++ named_by session.now kind number }
    ensures len { length result ≤ length line + 33 }
{
    line.text(b" ")
        .text(or_plus(name_of(session, kind, number)))
}

/// Appends a space and the name of that state of the delegate.
fn named_by_delegate(line: Piece, session: &Session, state: u32) -> Piece
    requires { length line ≤ 95 }
    ensures text { result ≡ line ++ named_by_delegate session.now session.now.phase state }
    ensures len { length result ≤ length line + 33 }
{
    match session.phase() {
        Phase::Delegated(_, service) => {
            named_by(line, session, Kind::ServiceState(u32::from(service)), state)
        }
        _ => line.text(b" +"),
    }
}

/// Returns a word, or `+` if it is empty.
fn or_plus(word: &[u8]) -> &[u8]
    requires { length word.now ≤ 32 }
    ensures word { result.now ≡ or_plus word.now }
    ensures short { length result.now ≤ 32 }
{
    if word.is_empty() { b"+" } else { word }
}

/// Returns a name, or `+` if the bytes aren't a valid name.
fn name_or_plus(bytes: &[u8]) -> &[u8]
    ensures name { result.now ≡ name_or_plus bytes.now }
    ensures short { length result.now ≤ 32 }
{
    if Name::new(bytes).is_some() {
        bytes
    } else {
        b"+"
    }
}
