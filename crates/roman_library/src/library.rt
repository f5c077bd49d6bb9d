//! Libraries.

use roman_parts::{Behaviour, Environment, Target};
use roman_read::Name;

/// The content of a system document: the parts of a system, the services with their starting states,
/// and the limit. The library of a document with several targets has the parts that combine them.
#[derive(Drop)]
pub struct Library {
    /// The environment, which all services share.
    pub environment: Environment,
    /// The behaviours of the services, at most 32, in the order of the document.
    pub catalogue: Vec<Behaviour>,
    /// The services, at most 32, in the order of the document.
    pub services: Vec<Service>,
    /// The target to be composed from the services.
    pub target: Target,
    /// The greatest allowed number of cells (pairs times actions) of the system, from 1 to 16,777,216.
    pub limit: u32,
}

/// A service: a named instance of a behaviour.
#[derive(Clone, Copy)]
pub struct Service {
    /// The name of the service.
    pub name: Name,
    /// The place of the service's behaviour in the catalogue.
    pub behaviour: u8,
    /// The number of the state in which the service starts.
    pub state: u8,
    /// Whether the service is frozen at first, so that it takes no delegations.
    pub frozen: bool,
    /// Whether the service must be in a final state when the target is in one. Otherwise the service
    /// is loose.
    pub rests: bool,
}
