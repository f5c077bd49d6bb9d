//! Refusals of documents.
ghost use Rattle.roman_library.specs.declared.refusal.LoadError.TheVariants.{Memory};
ghost use Rattle.std.specs.Prelude.{◌≡◌};

use crate::file_name::FileName;
use roman_parts::List;
use roman_read::Kind;
use std::alloc::{AllocError, AllocFailed};
use thiserror::Error;

/// A part of a document.
#[derive(Clone, Copy, Debug, PartialEq, Eq)]
pub enum Part {
    /// The system as a whole.
    System,
    /// The environment.
    Environment,
    /// The behaviour with this number, from 0.
    Behaviour(u32),
    /// The service with this number, from 0.
    Service(u32),
    /// The target with this number, from 0. The number is also 0 if there is only one target.
    Target(u32),
    /// The costs for advice, which have a text of their own.
    Costs,
}

/// The first rule that a document breaks, and the place of the violation. A refusal line reports it.
#[derive(Debug, Drop)]
pub struct Refusal {
    /// The name of the document or the part file that breaks the rule.
    pub document: FileName,
    /// The broken rule.
    pub kind: Kind,
    /// The part that breaks the rule.
    pub part: Part,
    /// The member or list of that part.
    pub list: List,
    /// The number of the item in that list, from 0. It is also 0 for the list as a whole, and for a
    /// member that isn't a list. For a broken rule on combined targets it is the number of the
    /// rule, from 1 to 4.
    pub index: u32,
}

/// Why a document wasn't loaded.
#[derive(Debug, Drop, Error)]
pub enum LoadError {
    /// The shelf failed.
    #[error("the shelf failed")]
    Fault,
    /// The document breaks a rule.
    #[error("a rule of documents is broken")]
    Refused(Refusal),
    /// Out of memory.
    #[error("there is no memory")]
    Memory,
}

impl From<AllocError> for LoadError {
    ghost from_gives = { λ _ error. error ≡ Memory };

    fn from(_error: AllocError) -> LoadError {
        LoadError::Memory
    }
}

impl<T: Drop> From<AllocFailed<T>> for LoadError {
    ghost from_gives = { λ _ error. error ≡ Memory };

    fn from(_error: AllocFailed<T>) -> LoadError {
        LoadError::Memory
    }
}
