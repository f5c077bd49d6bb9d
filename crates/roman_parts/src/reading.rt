//! Look-ups in a part of a document. Each refusal names the list and the item.
ghost use Rattle.std.specs.Prelude.{◌≡◌, ◌≤◌, length, IfOk};
ghost use Rattle.serde_json.specs.View.{view, items_view};
ghost use Rattle.roman_read.specs.Json.{list_of};
ghost use Rattle.roman_parts.specs.Reading.{Gives, looked, items_at, counted_items};
ghost use Rattle.roman_parts.specs.declared.error.PartError.TheVariants.{Refused};

use crate::error::{List, PartError};
use roman_read::{Kind, Miss, member};
use serde_json::Value;

/// Returns the refusal of item `index` of a list. Takes no memory.
pub fn refused(kind: Kind, list: List, index: u32) -> PartError
    ensures { result ≡ Refused kind list index }
{
    PartError::Refused { kind, list, index }
}

/// Returns the value of a look-up, or the refusal of its miss at item `index` of a list. Takes no
/// memory.
pub fn looked<T>(read: Result<T, Miss>, list: List, index: u32) -> Result<T, PartError>
    ensures { result ≡ looked list index read }
{
    match read {
        Ok(value) => Ok(value),
        Err(miss) => Err(refused(miss.into(), list, index)),
    }
}

/// Returns the items of an array.
pub(crate) fn list_at(v: &Value, list: List, index: u32) -> Result<&[Value], PartError>
    ensures { Gives (λ x. items_view x.now) result (looked list index (list_of (view v.now))) }
{
    looked(roman_read::list(v), list, index)
}

#[tactic(auto, unfolding(crate::specs::Reading::items_at))]
/// Returns the items of a member that is an array.
pub(crate) fn list_member<'a>(
    v: &'a Value,
    name: &str,
    list: List,
) -> Result<&'a [Value], PartError>
    ensures { Gives (λ x. items_view x.now) result (items_at list name.now (view v.now)) }
{
    let member = looked(member(v, name), list, 0)?;
    list_at(member, list, 0)
}

#[tactic(auto, using(crate::proofs::StepLemmas::counts), unfolding(crate::specs::Reading::counted_items))]
/// Returns the items of a member that is an array with `least` to `most` items. Fails with
/// `Refused` exactly when the value isn't an object, or the member is missing, isn't an array, or
/// has fewer or more items. The refusal names `list`. Takes no memory.
pub fn counted_member<'a>(
    v: &'a Value,
    name: &str,
    list: List,
    least: u32,
    most: u32,
) -> Result<&'a [Value], PartError>
    ensures items { Gives (λ x. items_view x.now) result
        (counted_items list name.now least most (view v.now)) }
    ensures least { IfOk result (λ x. least ≤ length x.now) }
    ensures most { IfOk result (λ x. length x.now ≤ most) }
{
    let items = list_member(v, name, list)?;
    if items.len() < least as usize {
        return Err(refused(Kind::Count, list, 0));
    }
    if items.len() > most as usize {
        return Err(refused(Kind::Count, list, 0));
    }
    Ok(items)
}
