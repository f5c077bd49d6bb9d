//! The rules of a document, each named by its violation.
ghost use Rattle.std.specs.Prelude.{◌≡◌};
ghost use Rattle.roman_read.specs.Kinds.{kind_number, miss_number, kind_of};

use crate::name::Name;
use thiserror::Error;

/// A broken rule of a document. The line of a refusal names it.
#[derive(Clone, Copy, Debug, PartialEq, Eq)]
pub enum Kind {
    /// A member is missing.
    Missing,
    /// A value has the wrong shape.
    Form,
    /// A text isn't a name, is too short or too long for a file name, or gives a combined name that
    /// is too long.
    BadName,
    /// A name occurs twice.
    Repeated,
    /// A text isn't the name of a known item.
    Unknown,
    /// There are too few or too many items, or a number is too small or too great.
    Count,
    /// Two transitions of a target go from one state by one action to different successors, in an
    /// environment state that both guards have.
    Choice {
        /// The number of the earlier transition in the list, from 0.
        first: u32,
        /// The first environment state that both guards have.
        state: Name,
    },
    /// The version of the document is unknown.
    Version,
    /// The text isn't a JSON value.
    NotJson,
    /// The text has too many bytes.
    TooLong,
}

impl Kind {
    /// Returns the number of the kind, from 1 to 10 in the order of the variants.
    pub fn number(&self) -> u8
        ensures number { result ≡ kind_number self.now }
    {
        match self {
            Kind::Missing => 1,
            Kind::Form => 2,
            Kind::BadName => 3,
            Kind::Repeated => 4,
            Kind::Unknown => 5,
            Kind::Count => 6,
            Kind::Choice { .. } => 7,
            Kind::Version => 8,
            Kind::NotJson => 9,
            Kind::TooLong => 10,
        }
    }
}

/// Why a look-up in a value failed.
#[derive(Clone, Copy, Debug, PartialEq, Eq, Error)]
pub enum Miss {
    /// The member is missing.
    #[error("a member is missing")]
    Missing,
    /// The value has the wrong shape.
    #[error("a value has the wrong shape")]
    Form,
}

impl Miss {
    /// Returns the number of the miss, 1 for `Missing` and 2 for `Form`. It is the number of the kind
    /// with the same name.
    pub fn number(&self) -> u8
        ensures number { result ≡ miss_number self.now }
    {
        match self {
            Miss::Missing => 1,
            Miss::Form => 2,
        }
    }
}

impl From<Miss> for Kind {
    ghost from_gives = { λ miss kind. kind ≡ kind_of miss };

    fn from(miss: Miss) -> Kind {
        match miss {
            Miss::Missing => Kind::Missing,
            Miss::Form => Kind::Form,
        }
    }
}
