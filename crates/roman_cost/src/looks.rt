//! Reads parts of a text of costs. Names the broken rule if a part is missing or wrong.
ghost use Rattle.std.specs.Prelude.{◌≡◌, ◌<◌, true, false, map, length, IfOk};
ghost use Rattle.serde_json.specs.View.{view, items_view};
ghost use Rattle.roman_read.specs.Json.{list_of, number_of};
ghost use Rattle.roman_read.specs.declared.rules.Kind.TheVariants.{Form};
ghost use Rattle.roman_parts.specs.Lists.{place_in};
ghost use Rattle.roman_parts.specs.Reading.{looked};
ghost use Rattle.roman_parts.specs.declared.error.List.TheVariants as list;
ghost use Rattle.roman_joint.specs.Names.{beh_name};
ghost use Rattle.roman_cost.specs.Refusals.{ReadsAs, IsFaultless};
ghost use Rattle.roman_cost.specs.declared.error.CostError.TheVariants.{Refused};

use crate::error::CostError;
use roman_library::place_of_behaviour;
use roman_parts::Behaviour;
use roman_read::{Kind, NameTable, list, number, text};
use serde_json::Value;

/// Returns the refusal of the text as a whole.
pub(crate) fn refused(kind: Kind) -> CostError
    ensures { result ≡ Refused kind true 0 }
{
    CostError::Refused {
        kind,
        whole: true,
        index: 0,
    }
}

/// Returns the refusal of the item `index`.
pub(crate) fn refused_at(kind: Kind, index: u32) -> CostError
    ensures { result ≡ Refused kind false index }
{
    CostError::Refused {
        kind,
        whole: false,
        index,
    }
}

/// Returns the items of the text, which must be a list.
pub(crate) fn items_of(v: &Value) -> Result<&[Value], CostError>
    ensures items { ReadsAs (λ x. items_view x.now) result (looked list.Whole 0 (list_of (view v.now))) }
    ensures quiet { IsFaultless result }
{
    list(v).map_err(|_| refused(Kind::Form))
}

/// Returns the parts of the item `index`, which must be a list.
pub(crate) fn parts_of(v: &Value, index: u32) -> Result<&[Value], CostError>
    ensures parts { ReadsAs (λ x. items_view x.now) result (looked list.Steps index (list_of (view v.now))) }
    ensures quiet { IsFaultless result }
{
    list(v).map_err(|_| refused_at(Kind::Form, index))
}

/// Returns a number of the item `index`.
pub(crate) fn number_at(v: &Value, index: u32) -> Result<u64, CostError>
    ensures number { ReadsAs (λ x. x) result (looked list.Steps index (number_of (view v.now))) }
    ensures quiet { IsFaultless result }
{
    number(v).map_err(|_| refused_at(Kind::Form, index))
}

#[tactic(auto, unfolding(roman_parts::specs::Lists::place_in))]
/// Returns the place in the catalogue of the behaviour that the item `index` names.
pub(crate) fn behaviour_at(
    catalogue: &[Behaviour],
    v: &Value,
    index: u32,
) -> Result<usize, CostError>
    ensures place { ReadsAs (λ x. x) result (place_in (map beh_name catalogue.now) list.Steps index (view v.now)) }
    ensures within { IfOk result (λ place. place < length catalogue.now) }
    ensures quiet { IsFaultless result }
{
    let text = text(v).map_err(|_| refused_at(Kind::Form, index))?;
    place_of_behaviour(catalogue, text.as_bytes()).ok_or_else(|| refused_at(Kind::Unknown, index))
}

#[tactic(auto, unfolding(roman_parts::specs::Lists::place_in))]
/// Returns the number of the action that the item `index` names.
pub(crate) fn action_at(actions: &NameTable, v: &Value, index: u32) -> Result<u32, CostError>
    ensures place { ReadsAs (λ x. x) result (place_in actions.now list.Steps index (view v.now)) }
    ensures within { IfOk result (λ place. place < length actions.now) }
    ensures quiet { IsFaultless result }
{
    let text = text(v).map_err(|_| refused_at(Kind::Form, index))?;
    actions
        .find(text.as_bytes())
        .ok_or_else(|| refused_at(Kind::Unknown, index))
}
