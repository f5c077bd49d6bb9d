//! The system of a library, and its start pair.
ghost use Rattle.std.specs.Prelude.{◌≡◌, ◌<◌, ◌≤◌, length, map, vec_capacity, IfOk};
ghost use Rattle.roman_model.specs.System.{IsPair};
ghost use Rattle.roman_model.specs.Numbers.{sizes_of, count, number};
ghost use Rattle.roman_model.specs.declared.limits.TheConstants.{MAX_SERVICES};
ghost use Rattle.roman_joint.specs.NamedSys.{system_of};
ghost use Rattle.roman_library.specs.Library.{IsLibrary, plain};
ghost use Rattle.roman_start.specs.Starts.{seat_of_service, state_of_service, parts_of, starting};
ghost use Rattle.roman_start.specs.Seating.{IsSeated, IsWithinLimit};

use roman_joint::{Joint, JointError, Seat};
use roman_library::{Library, Service};
use roman_model::MAX_SERVICES;
use std::alloc::{AllocError, Global};

/// The system of a library with its start pair. A session, a certificate and a check start from it.
#[derive(Drop)]
pub struct Seated {
    /// The system. Its services are those of the library, in the same order.
    pub joint: Joint,
    /// The states in which the services start. The vector has room for the states of the greatest
    /// number of services.
    pub states: Vec<u8>,
    /// The number of the start pair.
    pub start: u32,
}

/// Builds the system of a library, with its start pair. Fails with `Limit` exactly when the system
/// has more cells (pairs times actions) than the limit of the library. Fails with `Memory` only
/// when out of memory.
pub fn seat_library(alloc: Global, library: Library) -> Result<Seated, JointError>
    requires { IsLibrary (plain library) }
    ensures seated { IfOk result (IsSeated (plain library)) }
    ensures limit { IsWithinLimit (parts_of (plain library)) result }
{
    let seats = seats_of(alloc, &library.services)?;
    let states = states_of(alloc, &library.services)?;
    let Library {
        environment,
        catalogue,
        target,
        limit,
        ..
    } = library;
    let joint = Joint::build(alloc, environment, catalogue, target, seats, limit)?;
    let start = start_of(&joint, &states);
    Ok(Seated {
        joint,
        states,
        start,
    })
}

fn seats_of(alloc: Global, services: &[Service]) -> Result<Vec<Seat>, AllocError>
    ensures { IfOk result (λ seats. seats.items ≡ map seat_of_service services.now) }
{
    let seat = |service: &Service| Seat {
        name: service.name,
        behaviour: service.behaviour,
        frozen: service.frozen,
        rests: service.rests,
    };
    services.iter().map(seat).collect(alloc)
}

/// Returns the states of the services, with room for the states of the greatest number of services.
fn states_of(alloc: Global, services: &[Service]) -> Result<Vec<u8>, AllocError>
    requires { length services.now ≤ MAX_SERVICES }
    ensures states { IfOk result (λ states. states.items ≡ map state_of_service services.now) }
    ensures room { IfOk result (λ states. MAX_SERVICES ≤ vec_capacity states) }
{
    let mut states = Vec::with_capacity(alloc, MAX_SERVICES as usize)?;
    for service in services {
        states.push_reserved(service.state);
    }
    Ok(states)
}

/// Returns the number of the pair with the start states of the target and the environment, and
/// these states of the services.
fn start_of(joint: &Joint, states: &[u8]) -> u32
    requires { IsPair (system_of joint.now) (starting joint.now states.now) }
    ensures number { result ≡ number (sizes_of (system_of joint.now)) (starting joint.now states.now) }
    ensures below { result < count (sizes_of (system_of joint.now)) }
{
    let target = joint.target().start();
    let env = joint.environment().start();
    joint.shape().number(target, env, states)
}
