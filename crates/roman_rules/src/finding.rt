//! The result of examining the outcomes of a delegation.

/// The result of examining the outcomes of a delegation: the pairs to which the delegated action can
/// lead.
#[derive(Clone, Copy, Debug, PartialEq, Eq)]
pub enum Finding {
    /// There is an outcome, and each outcome is alive.
    Good,
    /// There is no outcome.
    NoOutcome,
    /// Some outcome isn't alive. The fields describe the first such outcome, ordered by the
    /// environment's state and then by the service's.
    Leaves {
        /// The environment's state in that outcome.
        env: u8,
        /// The service's state in that outcome.
        state: u8,
        /// The number of the outcome's pair.
        pair: u32,
    },
}
