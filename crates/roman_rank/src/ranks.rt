//! The depths of the pairs of a system.
ghost use Rattle.std.specs.Prelude.{◌≡◌, ℕ, ◌<◌, ◌↔◌, None, length, IfOk, IfSome};
ghost use Rattle.roman_model.specs.System.{Sys, Pair, IsPair};
ghost use Rattle.roman_model.specs.Composition.{Great};
ghost use Rattle.roman_model.specs.Numbers.{sizes_of, pair_at};
ghost use Rattle.roman_model.specs.Play.{IsLeast};
ghost use Rattle.roman_joint.specs.NamedSys.{system_of};
ghost use Rattle.roman_relation.specs.Greatest.{HasCompleteList, IsShapedFor};
ghost use Rattle.roman_model.specs.Counting.{Counts};
ghost use Rattle.roman_rank.specs.Depths.{IsGreatest};
ghost use Rattle.roman_rank.specs.Ranking.{depth_in, AreDepths, AreRanks, IsRanking};
ghost use Rattle.roman_joint.specs.Pairs.{arena_of};

use crate::counting::counts_of;
use crate::levels::{depths_anew, depths_by};
use roman_io::Steps;
use roman_lanes::count_equal;
use roman_relation::Relation;
use std::alloc::{AllocError, Global};
use std::marker::Model;
use std::sync::ledger::Ledger;

/// The depth of each pair of a system: the least number of requests within which the opponent wins from
/// it.
///
/// Contracts see a table of these numbers, in the order of the pairs' numbers. `u32::MAX` means
/// that a pair has no depth. A clause about a system holds for each system whose
/// [depths](Ranks::build) the table has.
pub struct Ranks {
    depths: Vec<u32>,
    // the number of pairs of each depth, up to the greatest depth
    counts: Vec<u32>,
}

// One proof step. A derived drop is a step for each vector, at each exit of a function that owns it.
impl Drop for Ranks {
    fn drop(self) {
        let Ranks {
            depths: _,
            counts: _,
        } = self;
    }
}

impl Model for Ranks {
    ghost use Rattle.std.specs.Prelude.{List, ℕ};
    ghost use Rattle.roman_rank.specs.Ranking.{IsRanking};

    ghost Value = { List ℕ };

    ghost view = { λ a. a.depths.items };

    ghost invariant = { λ a. IsRanking a.depths.items a.counts.items };
}

impl Ranks {
    /// Returns the depths of a relation's system. Requires a complete list. Takes one pass over the
    /// removal list if that list has its levels. Otherwise runs the rounds anew, on a list that is
    /// dropped at the end. Fails only when out of memory. No other call allocates memory.
    pub fn build<L: Ledger>(
        alloc: Global,
        relation: &Relation,
        steps: &mut Steps<L>,
    ) -> Result<Ranks, AllocError>
        requires complete { HasCompleteList relation.now.joint relation.now.order }
        requires shaped { IsShapedFor relation.now.joint relation.now.order }
        ensures depths { IfOk result (AreDepths (system_of relation.now.joint)) }
    {
        relation.joint.known(); // the system is well formed, a pair's number fits in 32 bits
        let depths = depths_of(alloc, relation, steps)?;
        let counts = counts_of(alloc, &depths)?;
        Ok(Ranks { depths, counts })
    }

    /// Returns the number of pairs of the system.
    pub fn pairs(&self) -> u32
        ensures { result ≡ length self.now }
    {
        self.depths.len() as u32
    }

    /// Returns the least number of requests within which the opponent wins from the pair `p`. This is 0
    /// if clause 2 of an ND-simulation fails at the pair. Returns `None` exactly when the pair is
    /// related.
    #[tactic(auto, using(crate::proofs::Telling::depth_is_none, std::proofs::lemmas::List::get_or_read, crate::proofs::Telling::some_depth))]
    pub fn depth(&self, p: u32) -> Option<u32>
        requires { p < length self.now }
        ensures value { result ≡ depth_in self.now p }
        ensures least { (s : Sys) → AreDepths s self.now → IfSome result (IsLeast s (pair_at (sizes_of s) p)) }
        ensures related { (s : Sys) → AreDepths s self.now → (result ≡ None) ↔ Great s (pair_at (sizes_of s) p) }
    {
        let depth = self.depths[p as usize];
        if depth == u32::MAX { None } else { Some(depth) }
    }

    /// Returns the greatest depth, or `None` exactly when every pair is related.
    pub fn deepest(&self) -> Option<u32>
        ensures greatest { (s : Sys) → AreDepths s self.now → IfSome result (IsGreatest s) }
        ensures related { (s : Sys) → AreDepths s self.now → (result ≡ None) ↔ ((p : Pair) → IsPair s p → Great s p) }
    {
        let levels = self.counts.len() as u32;
        if levels == 0 { None } else { Some(levels - 1) }
    }

    /// Returns the number of pairs of depth `n`. Requires a depth below `u32::MAX`.
    pub fn level(&self, n: u32) -> u32
        requires { n < u32.MAX }
        ensures { (s : Sys) → AreDepths s self.now → Counts s (λ p. IsLeast s p n) result }
    {
        count_equal(&self.depths, n) as u32
    }

    /// Returns the number of related pairs of the system.
    #[tactic(auto, using(crate::proofs::Telling::related_counted))]
    pub fn related(&self) -> u32
        ensures { (s : Sys) → AreDepths s self.now → Counts s (Great s) result }
    {
        count_equal(&self.depths, u32::MAX) as u32
    }

    /// Returns the number of pairs of each depth, up to the greatest depth.
    pub(crate) fn levels(&self) -> &[u32]
        ensures { IsRanking self.now result.now }
    {
        &self.counts
    }
}

/// Returns the depth of each pair, or `u32::MAX` for a related pair. Fails only when out of memory.
#[tactic(auto, using(crate::proofs::Systems::few_pairs, crate::proofs::Systems::complete_all))]
fn depths_of<L: Ledger>(
    alloc: Global,
    relation: &Relation,
    steps: &mut Steps<L>,
) -> Result<Vec<u32>, AllocError>
    requires complete { HasCompleteList relation.now.joint relation.now.order }
    requires shaped { IsShapedFor relation.now.joint relation.now.order }
    ensures { IfOk result (λ depths. AreRanks (arena_of relation.now.joint) depths.items) }
{
    relation.joint.known(); // the system is well formed, a pair's number fits in 32 bits
    relation.order.known(); // listed pairs are pairs of the system
    if relation.order.levels().is_empty() {
        depths_anew(alloc, &relation.joint, steps)
    } else {
        depths_by(alloc, &relation.joint, &relation.order)
    }
}
