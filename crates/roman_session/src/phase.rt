//! The phases of a session.

/// The phase of a session: whether a request is open, and how far it is. An action is given by its
/// number in the library, which has combined actions if there are several targets. A service is
/// given by its place. Both count from 0.
#[derive(Clone, Copy, Debug, PartialEq, Eq)]
pub enum Phase {
    /// No request is open.
    Idle,
    /// The action was requested, and services were offered for it.
    Offered(u8),
    /// The action (first) was requested, and was delegated to the service (second).
    Delegated(u8, u8),
}
