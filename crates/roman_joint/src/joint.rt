//! Joints: their parts, how they are built, and the calls that read the parts.
ghost use Rattle.std.specs.Prelude.{◌≡◌, ◌<◌, ◌≤◌, ◌↔◌, All, length, map, vec_len, Some, Err, IfOk, slice_get};
ghost use Rattle.roman_model.specs.Lists.{HasNoRepeats};
ghost use Rattle.roman_model.specs.Numbers.{sizes_of};
ghost use Rattle.roman_model.specs.declared.limits.TheConstants.{MAX_SERVICES, MAX_CELLS};
ghost use Rattle.roman_joint.specs.Behaviours.{IsSeatBehaviour};
ghost use Rattle.roman_joint.specs.NamedSys.{NamedSys, named_parts, system_of, cells, IsOverEnv, TargetIsOverEnv, IsNamedSys};
ghost use Rattle.roman_joint.specs.Rows.{IsLayoutOf, low_in};
ghost use Rattle.roman_joint.specs.Moves.{AreLaneMoves, HoldsMoves};
ghost use Rattle.roman_model.specs.SystemArena.{seat_next};
ghost use Rattle.roman_joint.specs.Pairs.{joint_seat, joint_actions};

mod changes;
mod copies;
mod looks;
mod names;
mod walks;

use crate::error::JointError;
use crate::layout::Layout;
use crate::moves::{Move, Moves, moves_between};
use crate::seat::{Parts, Seat};
use crate::seats::shape_of;
use crate::tables::tables_of;
use crate::target_view::TargetView;
use roman_model::MAX_SERVICES;
use roman_parts::{Behaviour, Environment, Target};
use roman_radix::Shape;
use std::alloc::Global;
use std::marker::Model;

/// An environment, a catalogue of behaviours, a target and the services, as one system: the enacted
/// system of the Roman model (De Giacomo, Patrizi and Sardina, "Automatic Behavior Composition
/// Synthesis", Artificial Intelligence 196, 2013).
///
/// The pairs of the system have the numbers of its [shape](Joint::shape). Services are given by
/// their places, and actions and states by their numbers. Unless stated otherwise, numbers that are
/// passed must be in range, and calls allocate no memory.
pub struct Joint {
    environment: Environment,
    catalogue: Vec<Behaviour>,
    target: Target,
    // Has room for the greatest number of services.
    seats: Vec<Seat>,
    shape: Shape,
    rows: Layout,
    moves: Moves,
    // Ordered by the target's state, and then by the environment's.
    target_views: Vec<TargetView>,
    limit: u32,
}

// One proof step. A derived drop is a step for each vector, at each exit of a function that owns it.
impl Drop for Joint {
    fn drop(self) {
        let Joint {
            environment: _,
            catalogue: _,
            target: _,
            seats: _,
            shape: _,
            rows: _,
            moves: _,
            target_views: _,
            limit: _,
        } = self;
    }
}

impl Model for Joint {
    ghost use Rattle.roman_joint.specs.NamedSys.{NamedSys};

    ghost Value = { NamedSys };

    ghost use Rattle.roman_joint.specs.Layout.{named_sys_in, IsJoint};

    ghost view = { named_sys_in };

    ghost invariant = { IsJoint };
}

impl Joint {
    /// Builds the joint of these parts. The catalogue and the target must be made over this
    /// environment. There must be at most 32 services with distinct names, whose behaviours are
    /// places of the catalogue. The limit, from 1 to 16,777,216, is on cells: pairs times actions.
    /// Allocates the memory for 32 services and their moves at once, so later changes allocate
    /// none.
    ///
    /// Fails with `Limit` exactly if the cells exceed the limit, and with `Memory` only when out of
    /// memory.
    pub fn build(
        alloc: Global,
        environment: Environment,
        catalogue: Vec<Behaviour>,
        target: Target,
        seats: Vec<Seat>,
        limit: u32,
    ) -> Result<Joint, JointError>
        requires catalogue { All (IsOverEnv environment) catalogue.items }
        requires target { TargetIsOverEnv environment target }
        requires few { vec_len seats ≤ MAX_SERVICES }
        requires behaviours { All (λ seat. seat.behaviour < vec_len catalogue) seats.items }
        requires names { HasNoRepeats (map (λ seat. seat.name) seats.items) }
        requires limit { (0 < limit) × (limit ≤ MAX_CELLS) }
        ensures parts { IfOk result (λ joint. joint
            ≡ named_parts environment catalogue.items target seats.items limit) }
        ensures limit { (result ≡ Err JointError.Limit)
            ↔ (limit < cells (system_of (named_parts environment catalogue.items target seats.items limit))) }
    {
        let parts = Parts {
            environment: &environment,
            catalogue: &catalogue,
            target: &target,
            seats: &seats,
        };
        let Some(shape) = shape_of(&parts, limit) else {
            return Err(JointError::Limit);
        };
        let Ok(tables) = tables_of(alloc, &parts, &shape) else {
            return Err(JointError::Memory);
        };
        Ok(Joint {
            environment,
            catalogue,
            target,
            seats: tables.places,
            shape,
            rows: tables.rows,
            moves: tables.moves,
            target_views: tables.target_views,
            limit,
        })
    }

    /// Returns the environment that all services share.
    pub fn environment(&self) -> &Environment
        ensures { result.now ≡ self.now.environment }
    {
        &self.environment
    }

    /// Returns the behaviours that services can have, by their places.
    pub fn catalogue(&self) -> &[Behaviour]
        ensures { result.now ≡ self.now.catalogue }
    {
        &self.catalogue
    }

    /// Returns the target that is to be composed.
    pub fn target(&self) -> &Target
        ensures { result.now ≡ self.now.target }
    {
        &self.target
    }

    /// Returns the number of services, at most 32.
    pub fn seats(&self) -> u8
        ensures count { result ≡ length self.now.seats }
        ensures few { result ≤ MAX_SERVICES }
    {
        self.seats.len() as u8
    }

    /// Returns the service at place `k`, from 0.
    pub fn seat(&self, k: u8) -> &Seat
        requires { k < length self.now.seats }
        ensures { slice_get self.now.seats k ≡ Some result.now }
    {
        &self.seats[k as usize]
    }

    /// Returns the behaviour of the service at place `k`, from the catalogue.
    #[tactic(auto, using(crate::proofs::BehaviourLemmas::beh_placed))]
    pub fn behaviour(&self, k: u8) -> &Behaviour
        requires { k < length self.now.seats }
        ensures { IsSeatBehaviour self.now k result.now }
    {
        self.known(); // each seat's behaviour is in the catalogue
        let seat = self.seat(k);
        &self.catalogue()[seat.behaviour as usize]
    }

    /// Returns the numbering of the system's pairs, with the services as its components.
    pub fn shape(&self) -> &Shape
        ensures { result.now ≡ sizes_of (system_of self.now) }
    {
        &self.shape
    }

    // Returns how the numbers of pairs split into rows and lanes.
    pub(crate) fn layout(&self) -> &Layout
        ensures known { IsNamedSys self.now }
        ensures rows { IsLayoutOf (sizes_of (system_of self.now)) result.now }
    {
        &self.rows
    }

    // Returns the moves of the services within the lanes.
    fn table(&self) -> &Moves
        ensures { HoldsMoves (system_of self.now) result.now }
    {
        &self.moves
    }

    // Returns the moves of the service at place `k`, within the lanes, on an action in a state of the
    // environment: the lanes from which it has a step, and the moves of these lanes. A frozen service
    // has none.
    pub(crate) fn lane_moves(&self, k: u8, e: u8, a: u8) -> (u64, &[Move])
        requires within { low_in (system_of self.now) ≤ k }
        requires seat { k < length self.now.seats }
        requires env { e < (system_of self.now).env.states }
        requires action { a < joint_actions self.now }
        ensures { AreLaneMoves (sizes_of (system_of self.now)) k
            (λ b. seat_next (joint_seat self.now k) b e a) result.0 result.1.now }
    {
        if self.seat(k).frozen {
            return (0, &[]);
        }
        let rows = self.layout();
        let table = self.table();
        let attempt = u32::from(e) * table.actions + u32::from(a);
        let lows = u32::from(self.seats()) - u32::from(rows.low);
        let at = attempt * lows + u32::from(k - rows.low);
        let span = table.spans[at as usize];
        (span.some, moves_between(&table.moves, span.first, span.end))
    }

    /// Returns the greatest number of cells, pairs times actions, that the system may have.
    pub fn limit(&self) -> u32
        ensures { result ≡ self.now.limit }
    {
        self.limit
    }

    /// Does nothing. Its contract states what holds of every joint: its parts are those of a system
    /// within the limit.
    pub fn known(&self)
        ensures { IsNamedSys self.now }
    {
        let _limit = &self.limit;
    }
}
