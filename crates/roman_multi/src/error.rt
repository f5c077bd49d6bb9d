//! The errors of combining targets.
ghost use Rattle.std.specs.Prelude.{◌≡◌};
ghost use Rattle.roman_multi.specs.Errors.{combine_error_number};
ghost use Rattle.roman_multi.specs.declared.error.CombineError.TheVariants.{Memory};

use std::alloc::{AllocError, AllocFailed};
use thiserror::Error;

/// Why targets can't be combined: the first rule that forbids it, in the order of the variants, or
/// a lack of memory.
#[derive(Clone, Copy, Debug, PartialEq, Eq, Error)]
pub enum CombineError {
    /// There are more than 64 combined states.
    #[error("there are too many combined states")]
    States,
    /// There are no combined actions, or more than 32.
    #[error("there are too few or too many combined actions")]
    Actions,
    /// A combined state or action has a name of more than 32 bytes.
    #[error("a combined name is too long")]
    LongName,
    /// Two combined states, or two combined actions, have the same name.
    #[error("two combined names are the same")]
    Repeated,
    /// Out of memory.
    #[error("there is no memory")]
    Memory,
}

impl CombineError {
    /// Returns the number of the error, from 1 to 5 in the order of the variants.
    pub fn number(&self) -> u8
        ensures number { result ≡ combine_error_number self.now }
    {
        match self {
            CombineError::States => 1,
            CombineError::Actions => 2,
            CombineError::LongName => 3,
            CombineError::Repeated => 4,
            CombineError::Memory => 5,
        }
    }
}

impl From<AllocError> for CombineError {
    ghost from_gives = { λ _ error. error ≡ Memory };

    fn from(_error: AllocError) -> CombineError {
        CombineError::Memory
    }
}

impl<T: Drop> From<AllocFailed<T>> for CombineError {
    ghost from_gives = { λ _ error. error ≡ Memory };

    fn from(_error: AllocFailed<T>) -> CombineError {
        CombineError::Memory
    }
}
