//! The services of a system, and its parts, borrowed together.

use roman_parts::{Behaviour, Environment, Name, Target};

/// A service: a named instance of a behaviour, with its place in a system.
#[derive(Clone, Copy, Debug, PartialEq, Eq)]
pub struct Seat {
    /// The service's name.
    pub name: Name,
    /// The place of the service's behaviour in the catalogue.
    pub behaviour: u8,
    /// Whether the service takes no delegations for now.
    pub frozen: bool,
    /// Whether the service's state must be final whenever the target's is. If not, the service is
    /// loose.
    pub rests: bool,
}

/// The parts of which a system is made.
#[derive(Clone, Copy)]
pub(crate) struct Parts<'a> {
    pub(crate) environment: &'a Environment,
    pub(crate) catalogue: &'a [Behaviour],
    pub(crate) target: &'a Target,
    pub(crate) seats: &'a [Seat],
}
