//! Look-ups in a JSON value. They take no memory.
ghost use Rattle.serde_json.specs.View.{view, items_view};
ghost use Rattle.roman_read.specs.Json.{Finds, member_of, text_of, list_of, number_of, truth_of};

use crate::rules::Miss;
use serde_json::Value;

/// Returns the object's member with this name. Fails with `Form` exactly when the value isn't an
/// object, and with `Missing` exactly when it is an object without such a member.
pub fn member<'a>(v: &'a Value, name: &str) -> Result<&'a Value, Miss>
    ensures member { Finds (λ x. view x.now) result (member_of (view v.now) name.now) }
{
    if !v.is_object() {
        return Err(Miss::Form);
    }
    v.get(name).ok_or(Miss::Missing)
}

/// Returns the bytes of a string. Fails with `Form` exactly when the value isn't a string.
pub fn text(v: &Value) -> Result<&str, Miss>
    ensures text { Finds (λ x. x.now) result (text_of (view v.now)) }
{
    v.as_str().ok_or(Miss::Form)
}

/// Returns the items of an array. Fails with `Form` exactly when the value isn't an array.
pub fn list(v: &Value) -> Result<&[Value], Miss>
    ensures list { Finds (λ x. items_view x.now) result (list_of (view v.now)) }
{
    match v.as_array() {
        Some(items) => Ok(items.as_slice()),
        None => Err(Miss::Form),
    }
}

/// Returns a whole number from 0 to 2^64 - 1, written in digits alone. Fails with `Form` exactly for
/// any other value.
pub fn number(v: &Value) -> Result<u64, Miss>
    ensures number { Finds (λ x. x) result (number_of (view v.now)) }
{
    v.as_u64().ok_or(Miss::Form)
}

/// Returns a truth value. Fails with `Form` exactly when the value isn't one.
pub fn truth(v: &Value) -> Result<bool, Miss>
    ensures truth { Finds (λ x. x) result (truth_of (view v.now)) }
{
    v.as_bool().ok_or(Miss::Form)
}
