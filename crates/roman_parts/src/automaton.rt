//! The common part of behaviours and targets.
ghost use Rattle.std.specs.Prelude.{◌≡◌, ℕ, ◌<◌, All, IfOk};
ghost use Rattle.roman_guard.specs.Meaning.{has_state};
ghost use Rattle.roman_model.specs.System.{has, is_final};
ghost use Rattle.roman_model.specs.SystemArena.{beh_next, beh_prev};
ghost use Rattle.roman_parts.specs.Listed.{guarded_beh, AreInRange, IsCountUpTo};
ghost use Rattle.roman_parts.specs.Named.{IsOver};

use crate::cells::Cells;
use crate::masks::move_masks;
use crate::state_lists::StateLists;
use crate::steps::Move;
use roman_model::{MAX_ACTIONS, MAX_STATES};
use std::alloc::{AllocError, Global};
use std::marker::Model;

/// A finite set of states, a start state, final states and guarded steps. Contracts see the record
/// in normal form, and the numbers of states and actions of its environment.
#[derive(Drop)]
pub(crate) struct Automaton {
    cells: Cells,
    start: u8,
    // Bit b is set if b is a final state.
    finals: u64,
    // The lists of state b, environment state e and action a: the states to which the steps go, and
    // the states from which they go to b.
    next: StateLists,
    prev: StateLists,
}

impl Model for Automaton {
    ghost use Rattle.roman_parts.specs.Tables.{GuardedBeh, automaton_of, HasGuardedLists};

    ghost Value = { GuardedBeh };

    ghost view = { λ s. automaton_of s.cells.states s.cells.env_states s.cells.actions s.start s.finals s.next };

    ghost invariant = { λ s. HasGuardedLists
        (automaton_of s.cells.states s.cells.env_states s.cells.actions s.start s.finals s.next)
        s.finals s.next s.prev };
}

impl Automaton {
    /// Returns the automaton with these numbers, final states and steps (b, G, a, b').
    pub(crate) fn from_lists(
        alloc: Global,
        cells: Cells,
        start: u8,
        finals: &[u8],
        steps: &[Move],
    ) -> Result<Automaton, AllocError>
        requires env_states { IsCountUpTo MAX_STATES cells.env_states }
        requires actions { IsCountUpTo MAX_ACTIONS cells.actions }
        requires lists { AreInRange cells.states cells.actions start finals.now steps.now }
        ensures { IfOk result (λ made. made ≡ guarded_beh cells start finals.now steps.now) }
    {
        let next = StateLists::of_masks(alloc, &move_masks::<false>(alloc, cells, steps)?)?;
        let prev = StateLists::of_masks(alloc, &move_masks::<true>(alloc, cells, steps)?)?;
        Ok(Automaton {
            cells,
            start,
            finals: mask_of(finals),
            next,
            prev,
        })
    }

    pub(crate) fn copy(&self, alloc: Global) -> Result<Automaton, AllocError>
        ensures same { IfOk result (λ copy. copy ≡ self.now) }
    {
        Ok(Automaton {
            cells: self.cells,
            start: self.start,
            finals: self.finals,
            next: self.next.copy(alloc)?,
            prev: self.prev.copy(alloc)?,
        })
    }

    /// Does nothing. Its contract states that the numbers of the automaton are in range.
    pub(crate) fn known(&self)
        ensures { IsOver self.now.env_states self.now.actions self.now.beh }
    {
        let _cells = &self.cells;
    }

    pub(crate) fn start(&self) -> u8
        ensures start { result ≡ self.now.beh.start }
        ensures within { result < self.now.beh.states }
    {
        self.start
    }

    pub(crate) fn is_final(&self, b: u8) -> bool
        requires { b < self.now.beh.states }
        ensures { result ≡ is_final self.now.beh b }
    {
        (self.finals >> b) & 1 == 1
    }

    /// Returns the states to which action `a` goes from state `b` in environment state `e`, rising.
    #[tactic(auto, using(crate::proofs::TableLemmas::look_ups))]
    pub(crate) fn next(&self, b: u8, e: u8, a: u8) -> &[u8]
        requires state { b < self.now.beh.states }
        requires env_state { e < self.now.env_states }
        requires action { a < self.now.actions }
        ensures next { result.now ≡ beh_next self.now.beh b e a }
        ensures below { All (λ to. to < self.now.beh.states) result.now }
    {
        self.next.list(self.cells.at(b, e, a))
    }

    /// Returns the states from which action `a` goes to state `b` in environment state `e`, rising.
    #[tactic(auto, using(crate::proofs::TableLemmas::look_ups))]
    pub(crate) fn prev(&self, b: u8, e: u8, a: u8) -> &[u8]
        requires state { b < self.now.beh.states }
        requires env_state { e < self.now.env_states }
        requires action { a < self.now.actions }
        ensures prev { result.now ≡ beh_prev self.now.beh b e a }
        ensures below { All (λ from. from < self.now.beh.states) result.now }
    {
        self.prev.list(self.cells.at(b, e, a))
    }
}

/// Returns the mask of the listed states.
fn mask_of(states: &[u8]) -> u64
    requires { All (λ b. b < 64) states.now }
    ensures { (b : ℕ) → has_state result b ≡ has states.now b }
{
    let mut mask: u64 = 0;
    for &b in states {
        mask |= 1 << b;
    }
    mask
}
