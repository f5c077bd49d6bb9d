//! The actions, services, states and names that accepted events give.

use roman_joint::Seat;

/// A requested action, and the service to which it is delegated.
#[derive(Clone, Copy)]
pub struct Delegation {
    /// The number of the action.
    pub action: u8,
    /// The place of the service.
    pub seat: u8,
}

/// A change of a present service.
#[derive(Clone, Copy)]
pub enum ServiceChange {
    /// The service takes no more delegations for now.
    Freeze,
    /// The frozen service takes delegations again.
    Thaw,
    /// The service leaves the system.
    Die,
}

/// A service, and the state to which it is moved.
#[derive(Clone, Copy)]
pub struct Jump {
    /// The place of the service.
    pub seat: u8,
    /// The number of its state.
    pub state: u8,
}

/// The words of a `join`.
#[derive(Clone, Copy)]
pub struct JoinWords<'a> {
    /// The new service's name.
    pub service: &'a [u8],
    /// The name of its behaviour.
    pub behaviour: &'a [u8],
    /// The state in which it joins.
    pub state: &'a [u8],
    /// Whether the service never needs to be in a final state.
    pub loose: bool,
}

/// A service that joins, and the state in which it joins.
#[derive(Clone, Copy)]
pub struct Joining {
    /// The service, with its name and its behaviour.
    pub seat: Seat,
    /// The number of its state.
    pub state: u8,
}
