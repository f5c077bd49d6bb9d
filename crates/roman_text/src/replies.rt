//! Replies of a session.
ghost use Rattle.std.specs.Prelude.{◌≡◌};
ghost use Rattle.roman_text.specs.Replies.{refusal_number};

use roman_read::Name;

/// A reply to a session line: one whole line, or a part of one. `Offer`, `Serves` and `Stop`
/// together make the line that offers services. The last fourteen variants are refusals.
#[derive(Clone, Copy, Debug, PartialEq, Eq)]
pub enum Reply {
    /// The beginning of the line that offers services.
    Offer,
    /// A space and the name of a service that is offered.
    Serves(Name),
    /// The end of the line that offers services.
    Stop,
    /// The request is delegated to this service.
    Using(Name),
    /// The new target state and environment state.
    Now {
        /// The target's state.
        target: Name,
        /// The environment's state.
        env: Name,
    },
    /// The open request is given up.
    Aborted,
    /// The services changed.
    Kept {
        /// The number of entries of the renamed removal list that the replay kept.
        kept: u32,
        /// The number of pairs that were added to the list after that.
        added: u32,
    },
    /// A service or the environment is in another state.
    Jumped,
    /// The session ends.
    Bye,
    /// The line isn't an event.
    ErrorLine,
    /// A word of the line isn't a known name, or the name of a new service isn't a valid name.
    ErrorName,
    /// A request is open.
    ErrorBusy,
    /// No request is open, or the open request isn't in the phase that the event answers.
    ErrorIdle,
    /// The current pair isn't related.
    NoComposition,
    /// The target doesn't allow the action.
    NotAllowed,
    /// The service isn't offered.
    NotOffered,
    /// The transitions have no such outcome.
    Impossible,
    /// The service is frozen already.
    ErrorFrozen,
    /// The service isn't frozen.
    ErrorReady,
    /// A present service has the name.
    ErrorTaken,
    /// There are 32 services.
    ErrorFull,
    /// The grown system exceeds the limit on cells.
    ErrorLimit,
    /// The current pair is related.
    ErrorRelated,
}

impl Reply {
    /// Returns the number of a refusal, from 1 to 14 in the order of the last fourteen variants.
    /// Returns `None` for any other reply.
    pub fn number(&self) -> Option<u8>
        ensures number { result ≡ refusal_number self.now }
    {
        match self {
            Reply::ErrorLine => Some(1),
            Reply::ErrorName => Some(2),
            Reply::ErrorBusy => Some(3),
            Reply::ErrorIdle => Some(4),
            Reply::NoComposition => Some(5),
            Reply::NotAllowed => Some(6),
            Reply::NotOffered => Some(7),
            Reply::Impossible => Some(8),
            Reply::ErrorFrozen => Some(9),
            Reply::ErrorReady => Some(10),
            Reply::ErrorTaken => Some(11),
            Reply::ErrorFull => Some(12),
            Reply::ErrorLimit => Some(13),
            Reply::ErrorRelated => Some(14),
            _ => None,
        }
    }
}
