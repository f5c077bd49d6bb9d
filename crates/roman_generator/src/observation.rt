//! Observations: the states that are observed after a delegation.

/// An action that a service has served, and the states that are observed then.
#[derive(Clone, Copy, Debug, PartialEq, Eq)]
pub struct Observation {
    /// The action, by its number.
    pub action: u8,
    /// The service to which it was delegated, by its place.
    pub seat: u8,
    /// The service's state after it has served the action.
    pub state: u8,
    /// The environment's state after the action.
    pub env: u8,
}
