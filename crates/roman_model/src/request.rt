//! Requests of several targets.

/// A request of one of several targets.
#[derive(Clone, Copy, Debug, PartialEq, Eq)]
pub struct Request {
    /// The place of the target among the targets.
    pub target: u8,
    /// The number of the action in the environment.
    pub action: u8,
}
