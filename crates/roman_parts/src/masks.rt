//! Masks of states, one for each cell of a table.
ghost use Rattle.std.specs.Prelude.{◌≡◌, ℕ, ◌*◌, ◌<◌, ◌≤◌, length, IfOk, vec_len};
ghost use Rattle.roman_parts.specs.Cells.{HasMoves, HasTriples, PutsIntoCell, PutsIntoCells, ends, cell_count};
ghost use Rattle.roman_parts.specs.Listed.{AreTriples, AreMoves};

use crate::cells::Cells;
use crate::steps::{Move, Triple};
use roman_guard::StateSet;
use std::alloc::{AllocError, Global};

/// Returns, for each state and action, the states to which the steps lead, or if `BACK` the states
/// from which they lead to that state.
pub(crate) fn triple_masks<const BACK: bool>(
    alloc: Global,
    states: usize,
    actions: usize,
    steps: &[Triple],
) -> Result<Vec<u64>, AllocError>
    requires states { states ≤ 64 }
    requires actions { actions ≤ 32 }
    requires steps { AreTriples states actions steps.now }
    ensures len { IfOk result (λ masks. vec_len masks ≡ states * actions) }
    ensures has { IfOk result (λ masks. HasTriples BACK actions steps.now masks.items) }
{
    let mut masks = Vec::from_elem(alloc, 0, states * actions)?;
    for &(from, action, to) in steps {
        let (at, n) = ends::<BACK>(from, to);
        mark(&mut masks, at as usize * actions + action as usize, n);
    }
    Ok(masks)
}

/// Returns, for each state, environment state and action, the states to which the steps go, or if
/// `BACK` the states from which they go to that state.
pub(crate) fn move_masks<const BACK: bool>(
    alloc: Global,
    cells: Cells,
    steps: &[Move],
) -> Result<Vec<u64>, AllocError>
    requires { AreMoves cells.states cells.actions steps.now }
    ensures len { IfOk result (λ made. vec_len made ≡ cell_count cells) }
    ensures has { IfOk result (λ made. HasMoves BACK cells.env_states cells.actions steps.now made.items) }
{
    let mut masks = Vec::from_elem(alloc, 0, cells.count())?;
    for &(from, guard, action, to) in steps {
        let (at, n) = ends::<BACK>(from, to);
        mark_move(&mut masks, cells, at, guard, action, n);
    }
    Ok(masks)
}

/// Returns the state to whose cell a step is added, and the state that is added: the ends of the step,
/// exchanged if `BACK`.
fn ends<const BACK: bool>(from: u8, to: u8) -> (u8, u8)
    ensures ends { result ≡ ends BACK from to }
    ensures below { (n : ℕ) → from < n → to < n → (result.0 < n) × (result.1 < n) }
{
    if BACK { (to, from) } else { (from, to) }
}

/// Adds the state `n` to the cells of the state `at`, the action and each environment state of the
/// guard.
fn mark_move(masks: &mut [u64], cells: Cells, at: u8, guard: StateSet, action: u8, n: u8)
    requires len { length masks.old ≡ cell_count cells }
    requires at { at < cells.states }
    requires action { action < cells.actions }
    requires small { n < 64 }
    ensures { PutsIntoCells cells.env_states cells.actions masks.old masks.new at guard action n }
{
    for e in 0..cells.env_states {
        let e = e as u8;
        if guard.has(e) {
            mark(masks, cells.at(at, e, action), n);
        }
    }
}

/// Adds the state `n` to a cell.
#[tactic(auto, using(crate::proofs::CellLemmas::marking))]
fn mark(masks: &mut [u64], cell: usize, n: u8)
    requires cell { cell < length masks.old }
    requires small { n < 64 }
    ensures { PutsIntoCell masks.old masks.new cell n }
{
    masks[cell] |= 1 << n;
}
