//! Stores the costs of behaviours for actions.
ghost use Rattle.std.specs.Prelude.{◌≡◌, ◌<◌, ◌≤◌, [], ◌∷◌, ◌++◌, is_some, All, IfOk, OnOk, None};
ghost use Rattle.roman_model.specs.declared.limits.TheConstants.{MAX_BEHAVIOURS, MAX_ACTIONS};
ghost use Rattle.roman_cost.specs.Tables.{CostTable, listed_cost, cost_of};

use crate::limits::MAX_COST;
use std::alloc::{AllocError, Global};
use std::marker::Model;

/// An item of a text of costs: the cost of a behaviour for an action.
#[derive(Clone, Copy, Debug, PartialEq, Eq)]
pub struct Listed {
    /// The place of the behaviour in the catalogue.
    pub behaviour: u8,
    /// The number of the action.
    pub action: u8,
    /// The cost, at most [`MAX_COST`].
    pub cost: u32,
}

/// The costs of the behaviours of a catalogue for actions. Contracts see the listed costs, in their
/// order, and the numbers of behaviours and actions.
pub struct Costs {
    behaviours: usize,
    actions: usize,
    listed: Vec<Listed>,
    // The listed cost, if there is one, by behaviour and then by action.
    cells: Vec<Option<u32>>,
}

// One proof step. A derived drop is a step for each vector, at each exit of a function that owns it.
impl Drop for Costs {
    fn drop(self) {
        let Costs {
            behaviours: _,
            actions: _,
            listed: _,
            cells: _,
        } = self;
    }
}

impl Model for Costs {
    ghost use Rattle.roman_cost.specs.Tables.{CostTable, HoldsCosts};

    ghost Value = { CostTable };

    ghost view = { λ c. record {
      behaviours = c.behaviours;
      actions = c.actions;
      listed = c.listed.items;
    } };

    ghost invariant = { λ c. HoldsCosts (record {
      behaviours = c.behaviours;
      actions = c.actions;
      listed = c.listed.items;
    }) c.cells.items };
}

impl Costs {
    /// Returns an empty list of costs for `behaviours` behaviours and `actions` actions, with room
    /// for `room` items. Fails only when out of memory.
    pub(crate) fn none(
        alloc: Global,
        behaviours: usize,
        actions: usize,
        room: usize,
    ) -> Result<Costs, AllocError>
        requires behaviours { behaviours ≤ MAX_BEHAVIOURS }
        requires actions { actions ≤ MAX_ACTIONS }
        ensures none { IfOk result
            (λ costs. costs ≡ record { behaviours = behaviours; actions = actions; listed = [] }) }
    {
        let listed = Vec::with_capacity(alloc, room)?;
        let cells = Vec::from_elem(alloc, None, behaviours * actions)?;
        Ok(Costs {
            behaviours,
            actions,
            listed,
            cells,
        })
    }

    /// Returns whether a cost is listed for `behaviour` and the action `a`.
    pub(crate) fn has(&self, behaviour: u8, a: u8) -> bool
        requires behaviour { behaviour < self.now.behaviours }
        requires action { a < self.now.actions }
        ensures { result ≡ is_some (listed_cost self.now.listed behaviour a) }
    {
        self.cells[behaviour as usize * self.actions + a as usize].is_some()
    }

    /// Appends a cost to the list. Requires that no cost is listed for its behaviour and action
    /// yet. Fails only when out of memory.
    pub(crate) fn put(&mut self, item: Listed) -> Result<(), AllocError>
        requires behaviour { item.behaviour < self.old.behaviours }
        requires action { item.action < self.old.actions }
        requires small { item.cost ≤ MAX_COST }
        requires new { listed_cost self.old.listed item.behaviour item.action ≡ None }
        ensures put { OnOk result (self.new ≡ record self.old { listed = self.old.listed ++ item ∷ [] }) }
    {
        self.listed.push(item)?;
        self.cells[item.behaviour as usize * self.actions + item.action as usize] = Some(item.cost);
        Ok(())
    }

    /// Does nothing. Its contract states that no listed cost is greater than [`MAX_COST`].
    pub fn known(&self)
        ensures { All (λ x. x.cost ≤ MAX_COST) self.now.listed }
    {
        let _listed = &self.listed;
    }

    /// Returns the cost of a behaviour, given by its place in the catalogue, for the action `a`:
    /// the listed cost, or 0 if none is listed.
    #[tactic(auto, using(crate::proofs::CostLemmas::cost_of_small))]
    pub fn cost(&self, behaviour: u8, a: u8) -> u32
        requires behaviour { behaviour < self.now.behaviours }
        requires action { a < self.now.actions }
        ensures cost { result ≡ cost_of self.now.listed behaviour a }
        ensures small { result ≤ MAX_COST }
    {
        self.cells[behaviour as usize * self.actions + a as usize].unwrap_or(0)
    }
}
