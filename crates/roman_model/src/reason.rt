//! The reasons of removals.

/// Why a pair was removed: the reason of an entry of a removal list.
#[derive(Clone, Copy, Debug, PartialEq, Eq)]
pub enum Reason {
    /// Clause 2 of an ND-simulation fails: the target is in a final state, and some service that
    /// rests isn't.
    Final,
    /// The target allows this action at the pair, and each service has no outcome on it, or has one
    /// that was removed before.
    Act(u8),
}
