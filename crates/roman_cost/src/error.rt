//! The errors of reading costs and of building advice.
ghost use Rattle.std.specs.Prelude.{◌≡◌};
ghost use Rattle.roman_cost.specs.Errors.{cost_error_number, advice_error_number};
ghost use Rattle.roman_cost.specs.declared.error.CostError.TheVariants as cost;
ghost use Rattle.roman_cost.specs.declared.error.AdviceError.TheVariants as advice;

use roman_read::Kind;
use std::alloc::AllocError;
use thiserror::Error;

/// The reasons why costs can't be read from a text.
#[derive(Clone, Copy, Debug, PartialEq, Eq, Error)]
pub enum CostError {
    /// The shelf failed, and its count of faults rose.
    #[error("the shelf failed")]
    Fault,
    /// The text breaks a rule. This is the first broken rule in the order in which the text is
    /// read.
    #[error("a rule of costs is broken at item {index}")]
    Refused {
        /// The kind of rule.
        kind: Kind,
        /// Whether the text as a whole breaks the rule. Otherwise one of its items breaks it.
        whole: bool,
        /// The number of that item, from 0. It is 0 when the text as a whole breaks the rule.
        index: u32,
    },
    /// Out of memory.
    #[error("there is no memory")]
    Memory,
}

impl CostError {
    /// Returns the error's number, from 1 to 3 in the order of the variants.
    pub fn number(&self) -> u8
        ensures number { result ≡ cost_error_number self.now }
    {
        match self {
            CostError::Fault => 1,
            CostError::Refused { .. } => 2,
            CostError::Memory => 3,
        }
    }
}

impl From<AllocError> for CostError {
    ghost from_gives = { λ _ error. error ≡ cost.Memory };

    fn from(_error: AllocError) -> CostError {
        CostError::Memory
    }
}

/// The reasons why advice can't be built.
#[derive(Clone, Copy, Debug, PartialEq, Eq, Error)]
pub enum AdviceError {
    /// The number of related pairs times the number of requests is greater than
    /// [`MAX_VALUES`](crate::MAX_VALUES).
    #[error("there are too many values")]
    Limit,
    /// Out of memory.
    #[error("there is no memory")]
    Memory,
}

impl AdviceError {
    /// Returns the error's number: 1 for `Limit` and 2 for `Memory`.
    pub fn number(&self) -> u8
        ensures number { result ≡ advice_error_number self.now }
    {
        match self {
            AdviceError::Limit => 1,
            AdviceError::Memory => 2,
        }
    }
}

impl From<AllocError> for AdviceError {
    ghost from_gives = { λ _ error. error ≡ advice.Memory };

    fn from(_error: AllocError) -> AdviceError {
        AdviceError::Memory
    }
}
