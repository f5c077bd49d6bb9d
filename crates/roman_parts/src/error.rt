//! The refusals of parts.
ghost use Rattle.std.specs.Prelude.{◌≡◌};
ghost use Rattle.roman_parts.specs.declared.error.PartError.TheVariants.{Memory};

use roman_read::Kind;
use std::alloc::{AllocError, AllocFailed};
use thiserror::Error;

/// The member or the list of a document at which a rule is broken. A refusal line names it.
#[derive(Clone, Copy, Debug, PartialEq, Eq)]
pub enum List {
    /// The whole value.
    Whole,
    /// The version of the document.
    Roman,
    /// The limit on cells.
    Limit,
    /// The name of a part file.
    File,
    /// The name of a part.
    Name,
    /// The names of states.
    States,
    /// The start state.
    Start,
    /// The names of actions.
    Actions,
    /// The final states.
    Finals,
    /// The transitions.
    Steps,
    /// The catalogue of behaviours.
    Behaviours,
    /// The services.
    Services,
    /// The behaviour of a service.
    Behaviour,
    /// The state of a service.
    State,
    /// Whether a service is frozen.
    Frozen,
    /// Whether a service rests.
    Rests,
    /// The targets.
    Targets,
}

/// Why a part wasn't read.
#[derive(Clone, Copy, Debug, PartialEq, Eq, Error)]
pub enum PartError {
    /// The first broken rule, in the order of the document.
    #[error("a rule is broken at item {index}")]
    Refused {
        /// The broken rule.
        kind: Kind,
        /// The member or list that breaks the rule.
        list: List,
        /// The number of the item, from 0. It is also 0 for the list as a whole, and for a member
        /// that isn't a list.
        index: u32,
    },
    /// Out of memory, or 2^32 or more final states.
    #[error("there is no memory")]
    Memory,
}

impl From<AllocError> for PartError {
    ghost from_gives = { λ _ error. error ≡ Memory };

    fn from(_error: AllocError) -> PartError {
        PartError::Memory
    }
}

impl<T: Drop> From<AllocFailed<T>> for PartError {
    ghost from_gives = { λ _ error. error ≡ Memory };

    fn from(_error: AllocFailed<T>) -> PartError {
        PartError::Memory
    }
}
