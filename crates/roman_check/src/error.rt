//! Errors of a check.
ghost use Rattle.std.specs.Prelude.{◌≡◌};
ghost use Rattle.roman_check.specs.Verdicts.{error_number};
ghost use Rattle.roman_check.specs.declared.error.CheckError.TheVariants.{Fault, Memory};

use roman_io::Failed;
use std::alloc::AllocError;
use thiserror::Error;

/// Errors of a check.
#[derive(Clone, Copy, Debug, PartialEq, Eq, Error)]
pub enum CheckError {
    /// The source of the certificate failed, and its count of faults rose.
    #[error("the source of the certificate failed")]
    Fault,
    /// The certificate has more than [`MAX_CERTIFICATE_BYTES`](roman_model::MAX_CERTIFICATE_BYTES)
    /// bytes, and no line that ends within them is at fault.
    #[error("the certificate is too long")]
    TooLong,
    /// Out of memory.
    #[error("there is no memory")]
    Memory,
}

impl CheckError {
    /// Returns the number of the error, from 1 to 3 in the order of the variants.
    pub fn number(&self) -> u8
        ensures number { result ≡ error_number self.now }
    {
        match self {
            CheckError::Fault => 1,
            CheckError::TooLong => 2,
            CheckError::Memory => 3,
        }
    }
}

impl From<Failed> for CheckError {
    ghost from_gives = { λ _ error. error ≡ Fault };

    fn from(_failed: Failed) -> CheckError {
        CheckError::Fault
    }
}

impl From<AllocError> for CheckError {
    ghost from_gives = { λ _ error. error ≡ Memory };

    fn from(_error: AllocError) -> CheckError {
        CheckError::Memory
    }
}
