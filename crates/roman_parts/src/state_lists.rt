//! Lists of small numbers, stored one after another.
ghost use Rattle.std.specs.Prelude.{◌≡◌, ◌+◌, ◌*◌, ◌^◌, ◌<◌, ◌≤◌, ◌++◌, length, map, Some, IfOk, OnOk, slice_get, slice_index, slice_range};
ghost use Rattle.roman_parts.specs.Pieces.{IsCut};
ghost use Rattle.roman_guard.specs.Meaning.{states_of};

use std::alloc::{AllocError, Global};
use std::marker::Model;

/// Lists of numbers below 256, indexed by their place. Contracts see the list of these lists.
#[derive(Drop)]
pub(crate) struct StateLists {
    // List k has the items from bound k up to bound k + 1.
    bounds: Vec<u32>,
    items: Vec<u8>,
}

impl Model for StateLists {
    ghost use Rattle.std.specs.Prelude.{ℕ, List};
    ghost use Rattle.roman_parts.specs.Pieces.{pieces, IsCut};

    ghost Value = { List (List ℕ) };

    ghost view = { λ r. pieces r.bounds.items r.items.items };

    ghost invariant = { λ r. IsCut r.bounds.items r.items.items };
}

impl StateLists {
    /// Returns the lists of the states of each mask, rising.
    pub(crate) fn of_masks(alloc: Global, masks: &[u64]) -> Result<StateLists, AllocError>
        requires { length masks.now ≤ 2 ^ 17 }
        ensures lists { IfOk result (λ lists. lists ≡ map states_of masks.now) }
    {
        let mut bounds = Vec::with_capacity(alloc, masks.len() + 1)?;
        let mut items = Vec::with_capacity(alloc, count(masks))?;
        bounds.push_reserved(0);
        for mask in masks {
            push_states(&mut items, *mask)?;
            bounds.push_reserved(items.len() as u32);
        }
        Ok(StateLists { bounds, items })
    }

    pub(crate) fn copy(&self, alloc: Global) -> Result<StateLists, AllocError>
        ensures same { IfOk result (λ copy. copy ≡ self.now) }
    {
        Ok(StateLists {
            bounds: Vec::from_slice(alloc, &self.bounds)?,
            items: Vec::from_slice(alloc, &self.items)?,
        })
    }

    #[tactic(auto, using(crate::proofs::PieceLemmas::piece_look_ups))]
    pub(crate) fn list(&self, k: usize) -> &[u8]
        requires { k < length self.now }
        ensures list { slice_get self.now k ≡ Some result.now }
    {
        between(&self.bounds, &self.items, k)
    }
}

/// Returns the items from bound `k` to the next bound.
fn between<'a>(bounds: &[u32], items: &'a [u8], k: usize) -> &'a [u8]
    requires place { k + 1 < length bounds.now }
    requires cut { IsCut bounds.now items.now }
    ensures { result.now ≡ slice_range items.now (slice_index bounds.now k) (slice_index bounds.now (k + 1)) }
{
    let from = bounds[k] as usize;
    let to = bounds[k + 1] as usize;
    &items[from..to]
}

/// Returns the total number of states of the masks.
fn count(masks: &[u64]) -> usize
    requires { length masks.now ≤ 2 ^ 17 }
{
    let mut total = 0;
    for mask in masks {
        total += mask.count_ones() as usize;
    }
    total
}

/// Appends the states of a mask to the items, rising.
fn push_states(items: &mut Vec<u8>, mask: u64) -> Result<(), AllocError>
    ensures { OnOk result (items.new.items ≡ items.old.items ++ states_of mask) }
{
    let mut rest = mask;
    while rest != 0 {
        let next = rest.trailing_zeros();
        items.push(next as u8)?;
        rest &= !(1 << next);
    }
    Ok(())
}
