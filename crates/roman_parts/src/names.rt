//! Readers of lists of names, and of names from a list.
ghost use Rattle.std.specs.Prelude.{◌≡◌, ◌+◌, ◌-◌, ◌^◌, ◌<◌, ◌≤◌, length, IfOk, OnOk};
ghost use Rattle.serde_json.specs.View.{view};
ghost use Rattle.roman_parts.specs.Reading.{Gives};
ghost use Rattle.roman_parts.specs.Lists.{name_in, names_of, place_in, start_of, with_name_read};

use crate::error::{List, PartError};
use crate::reading::{counted_member, looked, refused};
use roman_read::{AddError, Kind, Name, NameTable, member, text};
use serde_json::Value;
use std::alloc::Global;

/// Reads a member that is a list of 1 to `most` names.
#[tactic(auto, using(roman_read::proofs::CallerLemmas::each), unfolding(crate::specs::Lists::names_of))]
pub(crate) fn read_names(
    alloc: Global,
    v: &Value,
    key: &str,
    list: List,
    most: u32,
) -> Result<NameTable, PartError>
    requires { most ≤ 64 }
    ensures names { Gives (λ x. x) result (names_of list key.now most (view v.now)) }
    ensures some { IfOk result (λ names. 0 < length names) }
    ensures few { IfOk result (λ names. length names ≤ most) }
{
    let items = counted_member(v, key, list, 1, most)?;
    let mut names = NameTable::new(alloc);
    for (i, item) in items.iter().enumerate() {
        add_name(&mut names, item, list, i as u32)?;
    }
    Ok(names)
}

/// Reads the next name of a list, and adds it to the names.
#[tactic(auto, unfolding(crate::specs::Lists::with_name_read))]
fn add_name(names: &mut NameTable, item: &Value, list: List, index: u32) -> Result<(), PartError>
    requires { length names.old < 2 ^ 32 - 1 }
    ensures names { Gives (λ _. names.new) result (with_name_read list index names.old (view item.now)) }
    ensures longer { OnOk result (length names.new ≡ length names.old + 1) }
{
    let name = name_in(item, list, index)?;
    match names.add(name) {
        Ok(_) => Ok(()),
        Err(AddError::Repeated(_)) => Err(refused(Kind::Repeated, list, index)),
        Err(AddError::Memory) => Err(PartError::Memory),
    }
}

/// Reads a value as a name.
pub(crate) fn name_in(v: &Value, list: List, index: u32) -> Result<Name, PartError>
    ensures { Gives (λ x. x) result (name_in list index (view v.now)) }
{
    let text = looked(text(v), list, index)?;
    match Name::new(text.as_bytes()) {
        Some(name) => Ok(name),
        None => Err(refused(Kind::BadName, list, index)),
    }
}

/// Returns the place of the name in a value, among at most 64 names. Fails with `Refused` exactly
/// when the value isn't a text, or isn't one of the names. The refusal names item `index` of
/// `list`. Takes no memory.
#[tactic(auto, unfolding(crate::specs::Lists::place_in))]
pub fn place_in(names: &NameTable, v: &Value, list: List, index: u32) -> Result<u8, PartError>
    requires few { length names.now ≤ 64 }
    ensures place { Gives (λ x. x) result (place_in names.now list index (view v.now)) }
    ensures within { IfOk result (λ found. found < length names.now) }
{
    let text = looked(text(v), list, index)?;
    match names.find(text.as_bytes()) {
        Some(found) => Ok(found as u8),
        None => Err(refused(Kind::Unknown, list, index)),
    }
}

#[tactic(auto, unfolding(crate::specs::Lists::start_of))]
pub(crate) fn read_start(states: &NameTable, v: &Value) -> Result<u8, PartError>
    requires { length states.now ≤ 64 }
    ensures start { Gives (λ x. x) result (start_of states.now (view v.now)) }
    ensures within { IfOk result (λ start. start < length states.now) }
{
    let start = looked(member(v, "start"), List::Start, 0)?;
    place_in(states, start, List::Start, 0)
}
