//! The services of a joint: copies, sizes, and the shape of these sizes.
ghost use Rattle.std.specs.Prelude.{◌≡◌, ◌≤◌, ◌↔◌, All, length, take, IsSome, IfSome, IfOk, vec_capacity};
ghost use Rattle.roman_model.specs.System.{IsSys};
ghost use Rattle.roman_model.specs.Numbers.{sizes_of};
ghost use Rattle.roman_model.specs.declared.limits.TheConstants.{MAX_SERVICES};
ghost use Rattle.roman_parts.specs.Named.{NamedEnv};
ghost use Rattle.roman_joint.specs.Behaviours.{seat_sizes, ArePlaced, HaveBehaviours};
ghost use Rattle.roman_joint.specs.NamedSys.{system_of, cells, IsOverEnv, TargetIsOverEnv};
ghost use Rattle.roman_joint.specs.Parts.{named_in};

use crate::seat::{Parts, Seat};
use roman_model::{MAX_SERVICES, PLACES};
use roman_parts::Behaviour;
use roman_radix::Shape;
use std::alloc::{AllocError, Global};

/// Copies the services into a table with room for 32. Fails only when out of memory.
pub(crate) fn copy_seats(alloc: Global, seats: &[Seat]) -> Result<Vec<Seat>, AllocError>
    ensures items { IfOk result (λ copy. copy.items ≡ seats.now) }
    ensures room { IfOk result (λ copy. MAX_SERVICES ≤ vec_capacity copy) }
{
    let mut copy = Vec::with_capacity(alloc, MAX_SERVICES as usize)?;
    copy.extend_from_slice(seats)?;
    Ok(copy)
}

/// Returns the number of states of each service, in the first places of a table.
pub(crate) fn sizes_of_seats(catalogue: &[Behaviour], seats: &[Seat]) -> [u8; PLACES]
    requires few { length seats.now ≤ MAX_SERVICES }
    requires behaviours { ArePlaced catalogue.now seats.now }
    ensures sizes { take (length seats.now) result ≡ seat_sizes catalogue.now seats.now }
    ensures known { (env : NamedEnv) → All (IsOverEnv env) catalogue.now →
        HaveBehaviours env.env catalogue.now seats.now }
{
    let mut sizes = [0; PLACES];
    for (k, seat) in seats.iter().enumerate() {
        sizes[k] = catalogue[seat.behaviour as usize].states().len() as u8;
    }
    sizes
}

/// Returns the numbering of the system's pairs, or `None` exactly if the system has more cells than
/// the limit.
pub(crate) fn shape_of(parts: &Parts<'_>, limit: u32) -> Option<Shape>
    requires catalogue { All (IsOverEnv parts.now.environment.now) parts.now.catalogue.now }
    requires target { TargetIsOverEnv parts.now.environment.now parts.now.target.now }
    requires few { length parts.now.seats.now ≤ MAX_SERVICES }
    requires behaviours { ArePlaced parts.now.catalogue.now parts.now.seats.now }
    ensures system { IsSys (system_of (named_in parts.now limit)) }
    ensures fits { IsSome result ↔ (cells (system_of (named_in parts.now limit)) ≤ limit) }
    ensures shape { IfSome result (λ shape. shape ≡ sizes_of (system_of (named_in parts.now limit))) }
{
    let sizes = sizes_of_seats(parts.catalogue, parts.seats);
    Shape::new(
        parts.target.states().len() as u8,
        parts.environment.states().len() as u8,
        &sizes[..parts.seats.len()],
        limit / parts.environment.actions().len(),
    )
}
