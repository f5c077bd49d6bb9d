//! The errors of building a joint and of adding a service.
ghost use Rattle.std.specs.Prelude.{◌≡◌};
ghost use Rattle.roman_joint.specs.Errors.{joint_error_number, seat_error_number};
ghost use Rattle.roman_joint.specs.declared.error.JointError.TheVariants.{Memory};

use std::alloc::AllocError;
use thiserror::Error;

/// Why a joint can't be built.
#[derive(Clone, Copy, Debug, PartialEq, Eq, Error)]
pub enum JointError {
    /// The system has more cells than the limit.
    #[error("the system has more cells than the limit")]
    Limit,
    /// There is no memory left for the joint's tables.
    #[error("there is no memory")]
    Memory,
}

impl JointError {
    /// Returns the error's number: 1 for `Limit` and 2 for `Memory`.
    pub fn number(&self) -> u8
        ensures number { result ≡ joint_error_number self.now }
    {
        match self {
            JointError::Limit => 1,
            JointError::Memory => 2,
        }
    }
}

impl From<AllocError> for JointError {
    ghost from_gives = { λ _ error. error ≡ Memory };

    fn from(_error: AllocError) -> JointError {
        JointError::Memory
    }
}

/// Why a service can't be added.
#[derive(Clone, Copy, Debug, PartialEq, Eq, Error)]
pub enum SeatError {
    /// There are 32 services already, the greatest number.
    #[error("there is no seat left")]
    Full,
    /// The system would have more cells than the limit.
    #[error("the system would have more cells than the limit")]
    Limit,
}

impl SeatError {
    /// Returns the error's number: 1 for `Full` and 2 for `Limit`.
    pub fn number(&self) -> u8
        ensures number { result ≡ seat_error_number self.now }
    {
        match self {
            SeatError::Full => 1,
            SeatError::Limit => 2,
        }
    }
}
