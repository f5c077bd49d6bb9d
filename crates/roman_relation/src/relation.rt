//! The greatest relation of a joint.
ghost use Rattle.std.specs.Prelude.{◌≡◌, ◌+◌, ◌<◌, ◌≤◌, ◌↔◌, not, length, filter, IsTrue, IfOk};
ghost use Rattle.roman_model.specs.System.{has};
ghost use Rattle.roman_model.specs.SystemArena.{pairs};
ghost use Rattle.roman_model.specs.Composition.{Great};
ghost use Rattle.roman_model.specs.Numbers.{sizes_of, pair_at};
ghost use Rattle.roman_model.specs.Offers.{is_related, choice_count};
ghost use Rattle.roman_rules.specs.Bits.{HasBits};
ghost use Rattle.roman_joint.specs.NamedSys.{system_of};
ghost use Rattle.roman_joint.specs.Parts.{HasSameParts};
ghost use Rattle.roman_order.specs.Board.{has_entry};
ghost use Rattle.roman_relation.specs.Shaped.{mask_by};
ghost use Rattle.roman_relation.specs.Settled.{Begins, with_list_of};
ghost use Rattle.roman_relation.specs.Greatest.{CanSettle, fall_since, HasAllLost, HasCapacity, HasLevels, HasShape, IsIdle, RisesInDepth};
ghost use Rattle.roman_joint.specs.Pairs.{joint_pairs, joint_actions, arena_of};

use crate::masks;
use crate::rounds::settle_list;
use roman_io::Steps;
use roman_joint::Joint;
use roman_order::Order;
use roman_rules::{Rules, SeatSet};
use std::alloc::{AllocError, Global};
use std::sync::ledger::Ledger;

/// A joint, and the removal list of the pairs that the greatest ND-simulation doesn't hold. A pair
/// is related if it isn't listed. The notion is that of De Giacomo, Patrizi and Sardina, "Automatic
/// Behavior Composition Synthesis" (Artificial Intelligence 196, 2013).
///
/// The two fields can be borrowed separately. The promises about the greatest ND-simulation hold if
/// the list is [complete](Relation::build): it has exactly the pairs that aren't related, and no
/// entry waits. The order must be shaped for the joint, as [`build`](Relation::build) leaves it.
/// Only [`afresh`](Relation::afresh) and [`reset_to`](Relation::reset_to) shape it themselves, and
/// need the room that `build` reserves.
#[derive(Drop)]
pub struct Relation {
    /// The system.
    pub joint: Joint,
    /// The removal list.
    pub order: Order,
}

impl Relation {
    /// Makes the greatest relation of a joint. Its removal list is complete, and the entries rise
    /// by depth, level by level. It has room for every system within the joint's limit. No other
    /// call but [`scratch`](Relation::scratch) allocates memory.
    ///
    /// Fails only when out of memory.
    pub fn build<L: Ledger>(
        alloc: Global,
        joint: Joint,
        steps: &mut Steps<L>,
    ) -> Result<Relation, AllocError>
        ensures joint { IfOk result (λ relation. relation.joint ≡ joint) }
        ensures complete { IfOk result HasAllLost }
        ensures rises { IfOk result RisesInDepth }
        ensures levels { IfOk result HasLevels }
        ensures shaped { IfOk result HasShape }
        ensures caps { IfOk result HasCapacity }
    {
        joint.known(); // there is at least one action
        let places = joint.limit() / u32::from(Rules::actions(&joint));
        let order = Order::build(alloc, places)?;
        let mut relation = Relation { joint, order };
        relation.afresh(steps);
        Ok(relation)
    }

    /// Makes an equal relation with its own tables and the same room, on which changes can be tried.
    ///
    /// Fails only when out of memory.
    pub fn scratch(&self, alloc: Global) -> Result<Relation, AllocError>
        ensures { IfOk result (λ scratch. scratch ≡ self.now) }
    {
        Ok(Relation {
            joint: self.joint.copy(alloc)?,
            order: self.order.copy(alloc)?,
        })
    }

    /// Makes this relation equal to `from`. Requires that the two differ only in their services and
    /// their lists, and that no entry of `from` waits. Copies only the contents of the tables of
    /// `from`, not their unused room. Allocates no memory.
    pub fn reset_to(&mut self, from: &Relation)
        requires parts { HasSameParts self.old.joint from.now.joint }
        requires caps { HasCapacity self.old }
        requires caps_from { HasCapacity from.now }
        requires idle { IsIdle from.now }
        ensures { self.new ≡ from.now }
    {
        self.joint.reset_seats_to(&from.joint);
        self.order.reset_to(&from.order);
    }

    /// Returns whether the pair `p` is related, by looking up one bit.
    #[tactic(auto, using(crate::proofs::Relating::counted))]
    pub fn related(&self, p: u32) -> bool
        requires shaped { HasShape self.now }
        requires pair { p < joint_pairs self.now.joint }
        ensures listed { result ≡ not (has_entry self.now.order.list p) }
        ensures great { let s = system_of self.now.joint in HasAllLost self.now
            → (IsTrue result ↔ Great s (pair_at (sizes_of s) p)) }
    {
        self.joint.known(); // the system is well formed
        self.order.known(); // listed pairs are pairs of the system
        self.order.alive(p)
    }

    /// Returns the number of related pairs, without a pass over them.
    #[tactic(auto, using(crate::proofs::Relating::counted))]
    pub fn count(&self) -> u32
        requires { HasShape self.now }
        ensures listed { result + length self.now.order.list ≡ joint_pairs self.now.joint }
        ensures related { let s = system_of self.now.joint in HasAllLost self.now
            → result ≡ length (filter (is_related s) (pairs s)) }
    {
        self.joint.known(); // the system is well formed
        self.order.unlisted()
    }

    /// Returns the mask of the action `a` at the pair `p`, related or not: the services that are
    /// ready and have an outcome there, and only outcomes that aren't listed. The mask is empty if
    /// the target doesn't allow the action. Computes it anew, since masks aren't stored.
    #[tactic(auto, using(crate::proofs::Relating::counted))]
    pub fn mask(&self, p: u32, a: u8) -> SeatSet
        requires shaped { HasShape self.now }
        requires pair { p < joint_pairs self.now.joint }
        requires action { a < joint_actions self.now.joint }
        ensures { HasBits result (has (mask_by (arena_of self.now.joint) self.now.order.list p a)) }
    {
        masks::mask(&self.joint, &self.order, p, a)
    }

    /// Returns the system.
    pub fn joint(&self) -> &Joint
        ensures { result.now ≡ self.now.joint }
    {
        &self.joint
    }

    /// Returns the removal list with its tables.
    pub fn order(&self) -> &Order
        ensures { result.now ≡ self.now.order }
    {
        &self.order
    }

    /// Returns the number of services in the masks of all pairs and actions together, whether the
    /// pairs are related or not. Computes the masks anew, band by band.
    pub fn choices(&self) -> u64
        requires { HasShape self.now }
        ensures { HasAllLost self.now → result ≡ choice_count (system_of self.now.joint) }
    {
        self.joint.known(); // the system is well formed
        self.order.known(); // listed pairs are pairs of the system
        masks::choices(&self.joint, &self.order)
    }

    /// Shapes the order for the joint, empties the list, and makes it complete by rounds. Does what
    /// [`build`](Relation::build) does, but without allocating memory. The entries then rise by
    /// depth, level by level. Requires an order without waiting entries.
    pub fn afresh<L: Ledger>(&mut self, steps: &mut Steps<L>)
        requires caps { HasCapacity self.old }
        requires idle { IsIdle self.old }
        ensures joint { self.new.joint ≡ self.old.joint }
        ensures complete { HasAllLost self.new }
        ensures rises { RisesInDepth self.new }
        ensures levels { HasLevels self.new }
        ensures shaped { HasShape self.new }
        ensures caps { HasCapacity self.new }
    {
        self.joint.known(); // the system is well formed and within its limit
        let lanes = self.joint.lanes();
        self.order.shape_to(self.joint.rows(), lanes);
        settle_list(&self.joint, &mut self.order, steps);
    }

    /// Extends the removal list to a complete one. Requires a list in which each entry is justified
    /// by those before it, and an order without waiting entries. Counts at most as many steps as
    /// delegations lead to the added pairs. Levels are kept only if the list was empty.
    pub fn settle<L: Ledger>(&mut self, steps: &mut Steps<L>)
        requires { CanSettle self.old }
        ensures complete { HasAllLost self.new }
        ensures begins { Begins self.old.order.list self.new.order.list }
        ensures rest { self.new ≡ record self.old { order = with_list_of self.old.order self.new.order } }
        ensures cost { steps.new ≤ steps.old + fall_since self.old self.new }
    {
        self.joint.known(); // the system is well formed
        settle_list(&self.joint, &mut self.order, steps);
    }
}
