//! Fills the tables of advice.
ghost use Rattle.std.specs.Prelude.{◌≡◌, ℕ, suc, ◌+◌, ◌*◌, ◌≤◌, take, length, slice_range, IfOk};
ghost use Rattle.roman_relation.specs.Greatest.{IsRelation};
ghost use Rattle.roman_cost.specs.Advised.{HavePlaces};
ghost use Rattle.roman_cost.specs.Filling.{CanFill};
ghost use Rattle.roman_cost.specs.NamedWords.{AreRelatedNumbers, related_numbers, terms_of_pairs, Appends, AreLeastCostsFor, values_for};

use crate::costs::Costs;
use crate::terms::{Term, push_pair, work_out};
use roman_relation::Relation;
use std::alloc::{AllocError, Global};

/// The approximate limit on the terms that are stored for all numbers of requests.
const MAX_TERMS: usize = 1_048_576;

/// Returns the related pairs, in rising order, and for each pair of the system the number of
/// related pairs before it. Fails only when out of memory.
pub(crate) fn ranked_pairs(
    alloc: Global,
    relation: &Relation,
    room: usize,
) -> Result<(Vec<u32>, Vec<u32>), AllocError>
    requires { IsRelation relation.now.joint relation.now.order }
    ensures pairs { IfOk result (λ made. made.0.items ≡ related_numbers relation.now.joint) }
    ensures ranks { IfOk result (λ made. HavePlaces (related_numbers relation.now.joint) made.1.items) }
{
    relation.joint.known(); // the system is well formed
    let count = relation.joint.shape().pairs();
    let mut pairs = Vec::with_capacity(alloc, room)?;
    let mut ranks = Vec::with_capacity(alloc, count as usize)?;
    for p in 0..count {
        ranks.push(pairs.len() as u32)?;
        if relation.related(p) {
            pairs.push(p)?;
        }
    }
    Ok((pairs, ranks))
}

/// Returns the terms of the first related pairs, and the number of these pairs. Stops after the
/// first pair that brings the terms to [`MAX_TERMS`] or more. Fails only when out of memory.
pub(crate) fn first_terms(
    alloc: Global,
    relation: &Relation,
    costs: &Costs,
    pairs: &[u32],
    ranks: &[u32],
) -> Result<(Vec<Term>, usize), AllocError>
    requires known { CanFill relation.now costs.now ranks.now }
    requires pairs { pairs.now ≡ related_numbers relation.now.joint }
    ensures within { IfOk result (λ made. made.1 ≤ length pairs.now) }
    ensures terms { IfOk result (λ made. made.0.items
        ≡ terms_of_pairs relation.now.joint costs.now ranks.now (take made.1 pairs.now)) }
{
    let mut terms = Vec::new(alloc);
    for (i, p) in pairs.iter().enumerate() {
        if terms.len() >= MAX_TERMS {
            return Ok((terms, i));
        }
        push_pair(&mut terms, relation, costs, ranks, *p)?;
    }
    Ok((terms, pairs.len()))
}

/// Appends the values of the related pairs `others` for one request more than `later` has. Fails only
/// when out of memory.
pub(crate) fn work_out_others(
    relation: &Relation,
    costs: &Costs,
    others: &[u32],
    ranks: &[u32],
    later: &[u32],
    values: &mut Vec<u32>,
    spare: &mut Vec<Term>,
) -> Result<(), AllocError>
    requires known { CanFill relation.now costs.now ranks.now }
    requires others { AreRelatedNumbers relation.now.joint others.now }
    ensures { (h : ℕ) → AreLeastCostsFor relation.now.joint costs.now h ranks.now later.now →
        Appends values.old.items values.new.items (values_for relation.now.joint costs.now (suc h) others.now) result }
{
    for p in others {
        spare.clear();
        push_pair(spare, relation, costs, ranks, *p)?;
        work_out(spare, later, values)?;
    }
    Ok(())
}

/// Returns the `n` values at place `i` of a table that has `n` values at each place.
pub(crate) fn values_at<T>(table: &[T], i: usize, n: usize) -> &[T]
    requires { i * n + n ≤ length table.now }
    ensures { result.now ≡ slice_range table.now (i * n) (i * n + n) }
{
    let from = i * n;
    &table[from..from + n]
}
