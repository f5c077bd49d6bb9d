//! The errors of making systems.
ghost use Rattle.std.specs.Prelude.{◌≡◌};
ghost use Rattle.roman_make.specs.Errors.{make_error_number};
ghost use Rattle.roman_make.specs.declared.error.MakeError.TheVariants.{Memory};

use std::alloc::AllocError;
use thiserror::Error;

/// Why a system wasn't made.
#[derive(Clone, Copy, Debug, PartialEq, Eq, Error)]
pub enum MakeError {
    /// The number isn't from 1 to 10.
    #[error("the number isn't 1 to 10")]
    Range,
    /// Out of memory.
    #[error("there is no memory")]
    Memory,
}

impl MakeError {
    /// Returns the number of the error, 1 for `Range` and 2 for `Memory`.
    pub fn number(&self) -> u8
        ensures number { result ≡ make_error_number self.now }
    {
        match self {
            MakeError::Range => 1,
            MakeError::Memory => 2,
        }
    }
}

impl From<AllocError> for MakeError {
    ghost from_gives = { λ _ error. error ≡ Memory };

    fn from(_error: AllocError) -> MakeError {
        MakeError::Memory
    }
}
