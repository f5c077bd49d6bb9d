//! Computes advice: the least worst-case costs of requests.
ghost use Rattle.std.specs.Prelude.{◌≡◌, ◌-◌, ◌*◌, ◌<◌, ◌≤◌, ◌↔◌, map, length, Err, IfOk};
ghost use Rattle.roman_model.specs.Lists.{IsIn};
ghost use Rattle.roman_model.specs.System.{Sys};
ghost use Rattle.roman_model.specs.Offers.{related_count};
ghost use Rattle.roman_model.specs.Plans.{least_at};
ghost use Rattle.roman_model.specs.Plans as plans;
ghost use Rattle.roman_joint.specs.NamedSys.{system_of};
ghost use Rattle.roman_relation.specs.Greatest.{IsRelation};
ghost use Rattle.roman_cost.specs.Advised.{Advises};
ghost use Rattle.roman_cost.specs.NamedWords.{CanAdvise, AllowsAt, AdvisesFor, seat_for, cost_for};
ghost use Rattle.roman_cost.specs.Tables.{AreOf};
ghost use Rattle.roman_cost.specs.declared.error.AdviceError.TheVariants as error;

use crate::costs::Costs;
use crate::error::AdviceError;
use crate::filling::{first_terms, ranked_pairs, values_at, work_out_others};
use crate::limits::{MAX_REQUESTS, MAX_VALUES};
use crate::seats::{better, cost_through};
use crate::terms::work_out;
use roman_generator::offers;
use roman_relation::Relation;
use std::alloc::Global;
use std::marker::Model;

/// The least worst-case costs of each number of requests, up to a greatest number, at each related
/// pair. Contracts see the greatest number, the pairs, and the values for each number of requests,
/// starting with those for no request.
pub struct Advice {
    requests: u8,
    pairs: Vec<u32>,
    // for each pair of the system, the number of related pairs before it
    ranks: Vec<u32>,
    values: Vec<u32>,
}

// One proof step. A derived drop is a step for each vector, at each exit of a function that owns it.
impl Drop for Advice {
    fn drop(self) {
        let Advice {
            requests: _,
            pairs: _,
            ranks: _,
            values: _,
        } = self;
    }
}

impl Model for Advice {
    ghost use Rattle.std.specs.Prelude.{◌≡◌, ◌+◌, ◌*◌, ◌≤◌};
    ghost use Rattle.roman_cost.specs.Advised.{AdviceTable, HasRanks};

    ghost Value = { AdviceTable };

    ghost view = { λ a. record {
      requests = a.requests;
      pairs = a.pairs.items;
      values = a.values.items;
    } };

    ghost invariant = { λ a. HasRanks a.requests a.pairs.items a.ranks.items a.values.items };
}

impl Advice {
    /// Builds advice for up to `h` requests, from 1 to [`MAX_REQUESTS`]. Requires costs that were
    /// read for the relation's system, and a relation whose list is complete.
    ///
    /// Fails with `Limit` exactly when the number of related pairs times `h` is greater than
    /// [`MAX_VALUES`], before it allocates any memory. Fails with `Memory` only when out of memory.
    pub fn build(
        alloc: Global,
        relation: &Relation,
        costs: &Costs,
        h: u8,
    ) -> Result<Advice, AdviceError>
        requires relation { IsRelation relation.now.joint relation.now.order }
        requires costs { AreOf relation.now.joint costs.now }
        requires requests { (0 < h) × (h ≤ MAX_REQUESTS) }
        ensures limit { (result ≡ Err error.Limit) ↔ (MAX_VALUES < related_count (system_of relation.now.joint) * h) }
        ensures requests { IfOk result (λ advice. advice.requests ≡ h) }
        ensures advises { IfOk result (AdvisesFor relation.now.joint costs.now) }
    {
        costs.known(); // no cost is greater than MAX_COST
        relation.joint.known(); // the system is well formed
        let count = relation.count();
        if u64::from(count) * u64::from(h) > u64::from(MAX_VALUES) {
            return Err(AdviceError::Limit);
        }
        let (pairs, ranks) = ranked_pairs(alloc, relation, count as usize)?;
        let mut values = Vec::with_capacity(alloc, count as usize * (h as usize + 1))?;
        values.resize(pairs.len(), 0)?;
        let (terms, told) = first_terms(alloc, relation, costs, &pairs, &ranks)?;
        let mut next = Vec::with_capacity(alloc, pairs.len())?;
        let mut spare = Vec::new(alloc);
        for done in 0..h {
            let later = values_at(&values, done as usize, pairs.len());
            let others = &pairs[told..];
            next.clear();
            work_out(&terms, later, &mut next)?;
            work_out_others(
                relation, costs, others, &ranks, later, &mut next, &mut spare,
            )?;
            values.extend_from_slice(&next)?;
        }
        Ok(Advice {
            requests: h,
            pairs,
            ranks,
            values,
        })
    }

    /// Returns the greatest number of requests: the number for which the advice was built.
    pub fn requests(&self) -> u8
        ensures { result ≡ self.now.requests }
    {
        self.requests
    }

    /// Returns the numbers of the related pairs, in rising order.
    pub fn pairs(&self) -> &[u32]
        ensures { result.now ≡ self.now.pairs }
    {
        &self.pairs
    }

    /// Returns the least worst-case cost of `h` requests at the related pair `p`: the minimum over
    /// all plans for them of the maximum over all requests of the target and all outcomes. Requires
    /// `h` from 0 to the number of requests for which the advice was built.
    pub fn value(&self, h: u8, p: u32) -> u32
        requires requests { h ≤ self.now.requests }
        requires related { IsIn p self.now.pairs }
        ensures { (s : Sys) (C : plans.Costs) → Advises s C self.now → result ≡ least_at s C h p }
    {
        let rank = self.ranks[p as usize];
        self.least_costs(h)[rank as usize]
    }

    // Returns the values for `h` requests: the least worst-case cost at each of the pairs.
    #[tactic(auto, using(crate::proofs::Values::table_values))]
    pub(crate) fn least_costs(&self, h: u8) -> &[u32]
        requires { h ≤ self.now.requests }
        ensures values { (s : Sys) (C : plans.Costs) → Advises s C self.now
            → result.now ≡ map (least_at s C h) self.now.pairs }
        ensures len { length result.now ≡ length self.now.pairs }
    {
        values_at(&self.values, h as usize, self.pairs.len())
    }

    /// Returns the cheapest service for the action `a` at the related pair `p`, and its cost. The
    /// cost is the least worst-case cost of `h` requests of which the first is `a` and is delegated
    /// to the service. If several services are cheapest, it returns the first. Requires that the
    /// target allows the action at the pair, the relation and the costs of
    /// [`build`](Advice::build), and `h` from 1 to the number of requests for which the advice was
    /// built. Allocates no memory.
    pub fn choice(&self, relation: &Relation, costs: &Costs, h: u8, p: u32, a: u8) -> (u8, u32)
        requires known { CanAdvise relation.now costs.now self.now p }
        requires requests { (0 < h) × (h ≤ self.now.requests) }
        requires allowed { AllowsAt relation.now.joint p a }
        ensures seat { result.0 ≡ seat_for relation.now.joint costs.now (h - 1) p a }
        ensures sum { result.1 ≡ cost_for relation.now.joint costs.now (h - 1) p a result.0 }
    {
        relation.joint.known(); // the system is well formed
        costs.known(); // no cost is greater than MAX_COST
        let ranks: &[u32] = &self.ranks;
        let later = self.least_costs(h - 1);
        let offered = offers(relation, p, a);
        let mut best = None;
        for k in 0..relation.joint.seats() {
            if offered.has(k) {
                let cost = cost_through(&relation.joint, costs, ranks, later, p, a, k);
                best = better(best, k, cost);
            }
        }
        best.unwrap()
    }
}
