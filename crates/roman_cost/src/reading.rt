//! Reads costs from a text on a shelf.
ghost use Rattle.std.specs.Prelude.{◌≡◌, ◌≤◌, [], length, IfOk, IfSome};
ghost use Rattle.serde_json.specs.View.{view, items_view};
ghost use Rattle.roman_model.specs.declared.limits.TheConstants.{MAX_BEHAVIOURS};
ghost use Rattle.roman_read.specs.Items.{each_item};
ghost use Rattle.roman_cost.specs.Costs.{item_for, with_cost_for, costs_for, value_of, costs_of};
ghost use Rattle.roman_cost.specs.Refusals.{ReadsAs, ReadsCosts, HasShelfCause, IsFaultless};
ghost use Rattle.roman_cost.specs.NamedWords.{IsItemFor};
ghost use Rattle.roman_cost.specs.Tables.{AreOf};

use crate::costs::{Costs, Listed};
use crate::error::CostError;
use crate::limits::{MAX_COST, MAX_COSTS};
use crate::looks::{action_at, behaviour_at, items_of, number_at, parts_of, refused, refused_at};
use roman_io::Shelf;
use roman_joint::Joint;
use roman_library::{DocError, document};
use roman_read::Kind;
use serde_json::Value;
use std::alloc::Global;

#[tactic(auto, unfolding(crate::specs::Costs::costs_of))]
/// Reads the costs that the text named `name` lists, by the names of the behaviours and actions of
/// a system. Leaves the texts of the shelf unchanged. Requires a catalogue of at most 32
/// behaviours.
///
/// Fails with `Refused` only when the text breaks a rule, and names the first broken one in the
/// order of the format. Fails with `Fault` only when the shelf failed; its count of faults has then
/// risen. Fails with `Memory` only when out of memory.
pub fn read_costs<F: Shelf>(
    alloc: Global,
    shelf: &mut F,
    name: &str,
    joint: &Joint,
) -> Result<Costs, CostError>
    requires few { length joint.now.catalogue ≤ MAX_BEHAVIOURS }
    ensures costs { IfSome (F.texts shelf.old) (λ ts. ReadsCosts result (costs_of ts name.now joint.now)) }
    ensures of { IfOk result (AreOf joint.now) }
    ensures texts { F.texts shelf.new ≡ F.texts shelf.old }
    ensures cause { HasShelfCause F.Shelf shelf.old shelf.new result }
{
    let value = read_value(alloc, shelf, name)?;
    costs_in(alloc, joint, &value)
}

#[tactic(auto, unfolding(crate::specs::Costs::value_of))]
/// Reads the JSON value of a text of costs.
fn read_value<F: Shelf>(alloc: Global, shelf: &mut F, name: &str) -> Result<Value, CostError>
    ensures value { IfSome (F.texts shelf.old) (λ texts. ReadsAs view result (value_of texts name.now)) }
    ensures texts { F.texts shelf.new ≡ F.texts shelf.old }
    ensures cause { HasShelfCause F.Shelf shelf.old shelf.new result }
{
    match document(alloc, shelf, name) {
        Ok(value) => Ok(value),
        Err(DocError::Fault) => Err(CostError::Fault),
        Err(DocError::Memory) => Err(CostError::Memory),
        Err(DocError::TooLong) => Err(refused(Kind::TooLong)),
        Err(DocError::NotJson) => Err(refused(Kind::NotJson)),
    }
}

#[tactic(auto, using(crate::proofs::CostLemmas::counts), unfolding(crate::specs::Costs::costs_in))]
fn costs_in(alloc: Global, joint: &Joint, v: &Value) -> Result<Costs, CostError>
    requires few { length joint.now.catalogue ≤ MAX_BEHAVIOURS }
    ensures costs { ReadsCosts result (costs_for joint.now (view v.now)) }
    ensures of { IfOk result (AreOf joint.now) }
    ensures quiet { IsFaultless result }
{
    let items = items_of(v)?;
    if items.len() > MAX_COSTS as usize {
        return Err(refused(Kind::Count));
    }
    read_items(alloc, joint, items)
}

#[tactic(auto, using(roman_read::proofs::CallerLemmas::each))]
fn read_items(alloc: Global, joint: &Joint, items: &[Value]) -> Result<Costs, CostError>
    requires few { length joint.now.catalogue ≤ MAX_BEHAVIOURS }
    requires items { length items.now ≤ MAX_COSTS }
    ensures costs { ReadsCosts result
        (each_item (with_cost_for joint.now) 0 [] (items_view items.now)) }
    ensures of { IfOk result (AreOf joint.now) }
    ensures quiet { IsFaultless result }
{
    let behaviours = joint.catalogue().len();
    let actions = joint.environment().actions().len() as usize;
    let mut costs = Costs::none(alloc, behaviours, actions, items.len())?;
    for (i, item) in items.iter().enumerate() {
        add_item(&mut costs, joint, item, i as u32)?;
    }
    Ok(costs)
}

#[tactic(auto, unfolding(crate::specs::Costs::with_cost))]
/// Reads the item `v`, and appends it to the costs. Fails when a cost is already listed for its
/// behaviour and action.
fn add_item(costs: &mut Costs, joint: &Joint, v: &Value, index: u32) -> Result<(), CostError>
    requires few { length joint.now.catalogue ≤ MAX_BEHAVIOURS }
    requires of { AreOf joint.now costs.old }
    ensures costs { ReadsAs (λ _. costs.new.listed) result
        (with_cost_for joint.now index costs.old.listed (view v.now)) }
    ensures of { IfOk result (λ _. AreOf joint.now costs.new) }
    ensures quiet { IsFaultless result }
{
    let item = read_item(joint, v, index)?;
    if costs.has(item.behaviour, item.action) {
        return Err(refused_at(Kind::Repeated, index));
    }
    costs.put(item)?;
    Ok(())
}

#[tactic(auto, using(roman_parts::proofs::CallerLemmas::items), unfolding(crate::specs::Costs::cost_item))]
/// Reads one item, by the names of the behaviours and actions of a system.
fn read_item(joint: &Joint, v: &Value, index: u32) -> Result<Listed, CostError>
    requires { length joint.now.catalogue ≤ MAX_BEHAVIOURS }
    ensures item { ReadsAs (λ x. x) result (item_for joint.now index (view v.now)) }
    ensures known { IfOk result (IsItemFor joint.now) }
    ensures quiet { IsFaultless result }
{
    let items = parts_of(v, index)?;
    let [behaviour, action, cost] = items else {
        return Err(refused_at(Kind::Form, index));
    };
    let behaviour = behaviour_at(joint.catalogue(), behaviour, index)?;
    let action = action_at(joint.environment().actions(), action, index)?;
    let cost = number_at(cost, index)?;
    if cost > u64::from(MAX_COST) {
        return Err(refused_at(Kind::Count, index));
    }
    Ok(Listed {
        behaviour: behaviour as u8,
        action: action as u8,
        cost: cost as u32,
    })
}
