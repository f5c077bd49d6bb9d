//! Final states.
ghost use Rattle.std.specs.Prelude.{◌<◌, ◌≤◌, All, IfOk, length};
ghost use Rattle.serde_json.specs.View.{view};
ghost use Rattle.roman_parts.specs.Reading.{Gives};
ghost use Rattle.roman_parts.specs.Lists.{finals_of};

use crate::error::{List, PartError};
use crate::names::place_in;
use crate::reading::list_member;
use roman_read::NameTable;
use serde_json::Value;
use std::alloc::Global;

#[tactic(auto, using(roman_read::proofs::CallerLemmas::pushes), unfolding(crate::specs::Lists::finals_of))]
/// Reads the final states, in their order. Fails with `Memory` also for 2^32 or more of them.
pub(crate) fn read_finals(
    alloc: Global,
    states: &NameTable,
    v: &Value,
) -> Result<Vec<u8>, PartError>
    requires { length states.now ≤ 64 }
    ensures finals { Gives (λ finals. finals.items) result (finals_of states.now (view v.now)) }
    ensures within { IfOk result (λ finals. All (λ b. b < length states.now) finals.items) }
{
    let items = list_member(v, "final", List::Finals)?;
    if items.len() > u32::MAX as usize {
        return Err(PartError::Memory);
    }
    let mut finals = Vec::with_capacity(alloc, items.len())?;
    for (i, item) in items.iter().enumerate() {
        finals.push(place_in(states, item, List::Finals, i as u32)?)?;
    }
    Ok(finals)
}
