//! Copies joints.
ghost use Rattle.std.specs.Prelude.{◌≡◌, ◌≤◌, IfOk, length, vec_capacity};
ghost use Rattle.roman_joint.specs.Parts.{HasSameParts};

use super::Joint;
use crate::moves::moves_of;
use crate::seat::{Parts, Seat};
use crate::seats::copy_seats;
use roman_parts::Behaviour;
use std::alloc::{AllocError, Global};

impl Joint {
    /// Makes an equal joint, with room for 32 services.
    ///
    /// Fails only when out of memory.
    pub fn copy(&self, alloc: Global) -> Result<Joint, AllocError>
        ensures same { IfOk result (λ copy. copy ≡ self.now) }
    {
        let parts = Parts {
            environment: &self.environment,
            catalogue: &self.catalogue,
            target: &self.target,
            seats: &self.seats,
        };
        // Each `?` drops the copies before it, so the copies that are cheapest to drop come first.
        Ok(Joint {
            moves: moves_of(alloc, &parts, &self.shape, &self.rows)?,
            target_views: Vec::from_slice(alloc, &self.target_views)?,
            seats: copy_seats(alloc, &self.seats)?,
            target: self.target.copy(alloc)?,
            environment: self.environment.copy(alloc)?,
            catalogue: copy_catalogue(alloc, &self.catalogue)?,
            shape: self.shape,
            rows: self.rows,
            limit: self.limit,
        })
    }

    /// Makes this joint equal to `from`. Requires the same environment, catalogue, target and
    /// limit; the services can differ. Allocates no memory.
    pub fn reset_seats_to(&mut self, from: &Joint)
        requires { HasSameParts self.old from.now }
        ensures { self.new ≡ from.now }
    {
        put_seats(&mut self.seats, &from.seats);
        self.shape = from.shape;
        self.rows = from.rows;
        let parts = Parts {
            environment: &self.environment,
            catalogue: &self.catalogue,
            target: &self.target,
            seats: &self.seats,
        };
        self.moves.fill(&parts, &self.shape, &self.rows);
    }
}

/// Copies the behaviours, each with its own tables.
fn copy_catalogue(alloc: Global, catalogue: &[Behaviour]) -> Result<Vec<Behaviour>, AllocError>
    ensures { IfOk result (λ copies. copies.items ≡ catalogue.now) }
{
    let mut copies = Vec::with_capacity(alloc, catalogue.len())?;
    for behaviour in catalogue {
        copies.push(behaviour.copy(alloc)?)?;
    }
    Ok(copies)
}

/// Replaces the services of a table. Requires room for the new ones.
fn put_seats(places: &mut Vec<Seat>, seats: &[Seat])
    requires { length seats.now ≤ vec_capacity places.old }
    ensures items { places.new.items ≡ seats.now }
    ensures room { vec_capacity places.old ≤ vec_capacity places.new }
{
    places.clear();
    let Ok(()) = places.extend_from_slice(seats) else {
        unreachable!()
    };
}
