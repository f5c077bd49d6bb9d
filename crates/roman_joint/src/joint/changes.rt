//! Changes the services of a joint.
ghost use Rattle.std.specs.Prelude.{◌≡◌, ◌<◌, ◌≤◌, ◌++◌, ◌∷◌, [], ◌↔◌, length, map, Err, OnOk, OnErr, IsSome, IfSome, if◌then◌else◌};
ghost use Rattle.std.specs.List.{remove};
ghost use Rattle.roman_model.specs.Lists.{IsIn};
ghost use Rattle.roman_model.specs.Change.{Freeze, Thaw, Join, Die, after};
ghost use Rattle.roman_model.specs.System as model;
ghost use Rattle.roman_model.specs.Numbers.{sizes_of};
ghost use Rattle.roman_model.specs.declared.limits.TheConstants.{MAX_SERVICES};
ghost use Rattle.roman_joint.specs.NamedSys.{system_of, seat_of, cells, IsNamedSys};
ghost use Rattle.roman_joint.specs.Changes.{with_frozen};

use super::Joint;
use crate::error::SeatError;
use crate::layout::layout_of;
use crate::seat::{Parts, Seat};
use roman_model::MAX_SERVICES;
use roman_radix::Shape;

impl Joint {
    /// Freezes the service at place `k`, so that it takes no delegations, or thaws it. Nothing else
    /// changes.
    #[tactic(auto, using(crate::proofs::SeatChanges::frozen_set, crate::proofs::SeatChanges::frozen_system, crate::proofs::SeatChanges::with_seats))]
    pub fn set_frozen(&mut self, k: u8, frozen: bool)
        requires { k < length self.old.seats }
        ensures seats { self.new ≡ record self.old { seats = with_frozen self.old.seats k frozen } }
        ensures system { system_of self.new ≡ after (if frozen then Freeze k else Thaw k) (system_of self.old) }
    {
        self.seats[k as usize].frozen = frozen;
    }

    /// Removes the service at place `k`. Later services move up by one place, and the pairs get new
    /// numbers. Nothing else changes.
    pub fn drop_seat(&mut self, k: u8)
        requires { k < length self.old.seats }
        ensures seats { self.new ≡ record self.old { seats = remove self.old.seats k } }
        ensures system { (seat : model.Seat) → system_of self.new ≡ after (Die k seat) (system_of self.old) }
    {
        let _seat = self.seats.remove(k as usize);
        self.shape = self.shape.shrink(k);
        self.rows = layout_of(&self.shape);
        let parts = Parts {
            environment: &self.environment,
            catalogue: &self.catalogue,
            target: &self.target,
            seats: &self.seats,
        };
        self.moves.fill(&parts, &self.shape, &self.rows);
    }

    /// Adds a service at the last place. Requires a new name, and a behaviour that is a place of the
    /// catalogue. The pairs get new numbers. Nothing else changes.
    ///
    /// Fails with `Full` exactly if there are 32 services already, and with `Limit` exactly if
    /// there are fewer and the system with the service has more cells than the limit. The joint is
    /// then unchanged.
    pub fn push_seat(&mut self, seat: Seat) -> Result<(), SeatError>
        requires behaviour { seat.behaviour < length self.old.catalogue }
        requires name { IsIn seat.name (map (λ other. other.name) self.old.seats) → ⊥ }
        ensures seats { OnOk result (self.new ≡ record self.old { seats = self.old.seats ++ seat ∷ [] }) }
        ensures system { OnOk result (system_of self.new ≡ after (Join (seat_of self.old.catalogue seat))
            (system_of self.old)) }
        ensures full { (result ≡ Err SeatError.Full) ↔ (length self.old.seats ≡ MAX_SERVICES) }
        ensures limit { (result ≡ Err SeatError.Limit)
            ↔ ((length self.old.seats < MAX_SERVICES) ×
            (self.old.limit < cells (after (Join (seat_of self.old.catalogue seat)) (system_of self.old)))) }
        ensures refused { OnErr result (self.new ≡ self.old) }
    {
        if self.seats.len() == MAX_SERVICES as usize {
            return Err(SeatError::Full);
        }
        let Some(shape) = self.shape_with(&seat) else {
            return Err(SeatError::Limit);
        };
        self.rows = layout_of(&shape);
        self.shape = shape;
        self.seats.push_reserved(seat);
        let parts = Parts {
            environment: &self.environment,
            catalogue: &self.catalogue,
            target: &self.target,
            seats: &self.seats,
        };
        self.moves.fill(&parts, &self.shape, &self.rows);
        Ok(())
    }

    // Returns the numbering with one more service, or `None` exactly if the system with it has more
    // cells than the limit. Requires a service with a new name.
    #[tactic(auto, using(crate::proofs::SeatLemmas::states_range))]
    fn shape_with(&self, seat: &Seat) -> Option<Shape>
        requires room { length self.now.seats < MAX_SERVICES }
        requires behaviour { seat.now.behaviour < length self.now.catalogue }
        requires name { IsIn seat.now.name (map (λ other. other.name) self.now.seats) → ⊥ }
        ensures fits { IsSome result
            ↔ (cells (after (Join (seat_of self.now.catalogue seat.now)) (system_of self.now)) ≤ self.now.limit) }
        ensures shape { IfSome result (λ shape. shape
            ≡ sizes_of (system_of (record self.now { seats = self.now.seats ++ seat.now ∷ [] }))) }
        ensures known { IsSome result → IsNamedSys (record self.now { seats = self.now.seats ++ seat.now ∷ [] }) }
    {
        self.known(); // the system is well formed and within its limit
        let behaviour = &self.catalogue()[seat.behaviour as usize];
        let size = behaviour.states().len() as u8;
        let cap = self.limit() / self.environment().actions().len();
        self.shape().grow(size, cap)
    }
}
