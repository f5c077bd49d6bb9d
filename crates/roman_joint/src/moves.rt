//! Moves of services within the lanes. For each such service, each action and each state of the
//! environment, the table has the lanes from which the behaviour has a step, grouped by how far
//! they move. Moves don't depend on whether a service is frozen.
ghost use Rattle.std.specs.Prelude.{◌≡◌, ◌+◌, ◌-◌, ◌*◌, ◌<◌, ◌≤◌, ◌++◌, ◌∷◌, [], ◌==◌, if◌then◌else◌, length, slice_index, slice_range, vec_len, vec_capacity, IfOk};
ghost use Rattle.roman_joint.specs.Rows.{IsLayoutOf};
ghost use Rattle.roman_joint.specs.Moves.{lane_moves_from, move_by, system_in, AreSeatsIn, SuitsShifts, SuitsEnv, HasRoomFor, FillsColumns, HoldsMoves, HasPlaces, IsAdded};

use crate::layout::Layout;
use crate::seat::Parts;
use crate::shifts::{Shifts, shifts_of};
use roman_model::MAX_SERVICES;
use roman_parts::Behaviour;
use roman_radix::Shape;
use std::alloc::{AllocError, Global};

/// The greatest number of services within the lanes.
const MAX_SPANS: u32 = MAX_SERVICES as u32;

/// An upper bound on the moves of all services within the lanes, on one action in one state of the
/// environment. The product of their sizes is at most 64, so those with more than one state have sizes
/// that add up to at most 64. Each of these has fewer moves than twice its size. Each other service
/// has at most one move.
const MAX_MOVES: u32 = 2 * 64 + MAX_SPANS;

/// Lanes from which a service moves equally far: lane l moves to lane `l + to - from`.
#[derive(Clone, Copy, Debug)]
pub(crate) struct Move {
    pub(crate) lanes: u64,
    pub(crate) from: u32,
    pub(crate) to: u32,
}

/// The place of a service's moves in the table, on one action in one state of the environment.
#[derive(Clone, Copy, Debug)]
pub(crate) struct Span {
    /// The lanes from which the service's behaviour has a step.
    pub(crate) some: u64,
    pub(crate) first: u32,
    pub(crate) end: u32,
}

/// The moves of all services within the lanes.
#[derive(Drop)]
pub(crate) struct Moves {
    /// The number of states of the environment, and the number of actions.
    pub(crate) envs: u32,
    pub(crate) actions: u32,
    /// Ordered by the environment's state, then by the action and then by the service.
    pub(crate) spans: Vec<Span>,
    pub(crate) moves: Vec<Move>,
}

/// Returns the moves of a table from place `first` on, up to place `end`.
pub(crate) fn moves_between(moves: &[Move], first: u32, end: u32) -> &[Move]
    requires order { first ≤ end }
    requires within { end ≤ length moves.now }
    ensures { result.now ≡ slice_range moves.now first end }
{
    &moves[first as usize..end as usize]
}

/// Adds the move of a shift, if some lane moves by it.
fn push_shift(moves: &mut Vec<Move>, lanes: u64, j: u8, last: u8, stride: u32)
    requires room { vec_len moves.old < vec_capacity moves.old }
    requires small { last * stride < 64 }
    requires shift { j ≤ last + last }
    ensures moves { moves.new.items ≡ moves.old.items ++ (if lanes == 0 then [] else move_by lanes last stride j ∷ []) }
    ensures capacity { vec_capacity moves.new ≡ vec_capacity moves.old }
{
    if lanes == 0 {
        return;
    }
    moves.push_reserved(Move {
        lanes,
        from: u32::from(last.saturating_sub(j)) * stride,
        to: u32::from(j.saturating_sub(last)) * stride,
    });
}

/// Adds the moves of all shifts.
#[tactic(auto, using(crate::proofs::MoveLemmas::shift_steps))]
fn push_shifts(moves: &mut Vec<Move>, lanes: &[u64], last: u8, stride: u32)
    requires room { vec_len moves.old + last + last < vec_capacity moves.old }
    requires small { last * stride < 64 }
    requires few { last < 64 }
    requires long { last + last < length lanes.now }
    ensures moves { moves.new.items ≡ moves.old.items ++ lane_moves_from lanes.now last stride (last + last + 1) }
    ensures capacity { vec_capacity moves.new ≡ vec_capacity moves.old }
{
    for j in 0..last + last + 1 {
        push_shift(moves, lanes[j as usize], j, last, stride);
    }
}

impl Moves {
    /// Makes a table without moves, with room for those of the greatest number of services. Fails only
    /// when out of memory.
    pub(crate) fn reserve(alloc: Global, envs: u32, actions: u32) -> Result<Moves, AllocError>
        requires few { (envs ≤ 64) × (actions ≤ 32) }
        ensures { IfOk result (HasRoomFor envs actions) }
    {
        let columns = envs * actions;
        let spans = Vec::with_capacity(alloc, (columns * MAX_SPANS) as usize)?;
        let moves = Vec::with_capacity(alloc, (columns * MAX_MOVES) as usize)?;
        Ok(Moves {
            envs,
            actions,
            spans,
            moves,
        })
    }

    /// Adds the moves of a service on an action in a state of the environment.
    #[tactic(auto, using(crate::proofs::GoodLemmas::state_below, crate::proofs::MoveLemmas::moves_made, crate::proofs::MoveLemmas::shifts_few, crate::proofs::SplitLemmas::size_positive))]
    fn add(&mut self, shape: &Shape, rows: &Layout, behaviour: &Behaviour, k: u8, e: u8, a: u8)
        requires shifts { SuitsShifts shape.now rows.now k behaviour.now e a }
        requires room { HasPlaces (2 * slice_index shape.now.seats k - 1) self.old }
        ensures added { IsAdded shape.now k behaviour.now.beh e a self.old self.new }
    {
        let shifts = shifts_of(shape, rows, behaviour, k, e, a);
        let first = self.moves.len() as u32;
        let last = rows.sizes[k as usize] - 1;
        push_shifts(
            &mut self.moves,
            &shifts.lanes,
            last,
            rows.strides[k as usize],
        );
        let end = self.moves.len() as u32;
        self.spans.push_reserved(Span {
            some: shifts.some,
            first,
            end,
        });
    }

    /// Adds the moves of all services within the lanes in the next column: on an action, in a state of
    /// the environment.
    fn fill_column(&mut self, parts: &Parts<'_>, shape: &Shape, rows: &Layout, column: u32)
        requires seats { AreSeatsIn parts.now shape.now }
        requires rows { IsLayoutOf shape.now rows.now }
        requires column { let env = (system_in parts.now).env in column < env.states * env.actions }
        requires filled { FillsColumns (system_in parts.now) column self.old }
        ensures { FillsColumns (system_in parts.now) (column + 1) self.new }
    {
        let e = (column / self.actions) as u8;
        let a = (column % self.actions) as u8;
        let seats = parts.seats;
        let catalogue = parts.catalogue;
        for k in rows.low..seats.len() as u8 {
            let seat = &seats[k as usize];
            self.add(shape, rows, &catalogue[seat.behaviour as usize], k, e, a);
        }
    }

    /// Replaces all moves by those of all services within the lanes.
    pub(crate) fn fill(&mut self, parts: &Parts<'_>, shape: &Shape, rows: &Layout)
        requires seats { AreSeatsIn parts.now shape.now }
        requires rows { IsLayoutOf shape.now rows.now }
        requires suits { SuitsEnv parts.now.environment.now.env self.old }
        ensures { HoldsMoves (system_in parts.now) self.new }
    {
        self.spans.clear();
        self.moves.clear();
        for column in 0..self.envs * self.actions {
            self.fill_column(parts, shape, rows, column);
        }
    }
}

/// Makes the moves of these services, with room for those of the greatest number of services. Fails
/// only when out of memory.
pub(crate) fn moves_of(
    alloc: Global,
    parts: &Parts<'_>,
    shape: &Shape,
    rows: &Layout,
) -> Result<Moves, AllocError>
    requires seats { AreSeatsIn parts.now shape.now }
    requires rows { IsLayoutOf shape.now rows.now }
    ensures { IfOk result (HoldsMoves (system_in parts.now)) }
{
    let envs = parts.environment.states().len();
    let actions = parts.environment.actions().len();
    let mut moves = Moves::reserve(alloc, envs, actions)?;
    moves.fill(parts, shape, rows);
    Ok(moves)
}
