//! Parts that a document lists, each written in place or in a file.
ghost use Rattle.std.specs.Prelude.{◌≡◌, ◌^◌, ◌<◌, List, [], length, IfOk};
ghost use Rattle.serde_json.specs.View.{view, items_view};
ghost use Rattle.roman_parts.specs.Named.{NamedEnv};
ghost use Rattle.roman_parts.specs.Reading.{Gives};
ghost use Rattle.roman_library.specs.Documents.{PartAt, ReadAfter, listed_in};
ghost use Rattle.roman_library.specs.PartLists.{LeavesTexts, StaysWith, parts_listed};
ghost use Rattle.roman_library.specs.Refusals.{LoadsFrom};

use crate::locating::located;
use crate::part_file::{file_of, value_at};
use crate::refusal::{LoadError, Part};
use roman_io::Shelf;
use roman_parts::{Environment, PartError};
use serde_json::Value;
use std::alloc::Global;

/// A kind of part that a document lists, such as its behaviours.
pub(crate) trait Listed: Drop {
    /// The part, for refusals, at each place of the list.
    ghost part_at: { PartAt };

    /// The meaning of a value, over an environment and after the parts before it.
    ghost meaning: { ReadAfter Self };

    /// The property of the parts of a list, over an environment.
    ghost are_known: { NamedEnv → List Self → Type 0 };

    /// Returns the part with this number, for refusals.
    fn part(number: u32) -> Part
        ensures { result ≡ part_at number };

    /// Reads a part after the given ones.
    fn read_after(
        alloc: Global,
        v: &Value,
        environment: &Environment,
        before: &[Self],
    ) -> Result<Self, PartError>
        ensures part { Gives (λ x. x) result (meaning environment.now before.now (view v.now)) }
        ensures known { IfOk result (StaysWith (are_known environment.now) before.now) };
}

/// Loads the parts in the items of a list.
pub(crate) fn load_items<P: Listed, F: Shelf>(
    alloc: Global,
    shelf: &mut F,
    document: &str,
    items: &[Value],
    environment: &Environment,
) -> Result<Vec<P>, LoadError>
    requires few { length items.now < 2 ^ 32 }
    requires none { P.are_known environment.now [] }
    ensures parts { LoadsFrom (F.texts shelf.old) (λ x. x.items) result
        (λ texts. parts_listed P.part_at P.meaning texts document.now environment.now (items_view items.now)) }
    ensures known { IfOk result (λ parts. P.are_known environment.now parts.items) }
    ensures count { IfOk result (λ parts. length parts.items ≡ length items.now) }
    ensures shelf { LeavesTexts F.Shelf shelf.old shelf.new result }
{
    let mut parts = Vec::with_capacity(alloc, items.len())?;
    for (i, item) in items.iter().enumerate() {
        let number = i as u32;
        let part: P = load_item(alloc, shelf, document, number, item, environment, &parts)?;
        parts.push(part)?;
    }
    Ok(parts)
}

#[tactic(auto, unfolding(crate::specs::Documents::listed_in, crate::specs::Documents::part_of))]
/// Loads one part of a list after the given ones.
fn load_item<P: Listed, F: Shelf>(
    alloc: Global,
    shelf: &mut F,
    document: &str,
    number: u32,
    v: &Value,
    environment: &Environment,
    before: &[P],
) -> Result<P, LoadError>
    ensures part { LoadsFrom (F.texts shelf.old) (λ x. x) result
        (λ texts. listed_in P.part_at P.meaning texts document.now environment.now before.now number (view v.now)) }
    ensures known { IfOk result (StaysWith (P.are_known environment.now) before.now) }
    ensures shelf { LeavesTexts F.Shelf shelf.old shelf.new result }
{
    let part = P::part(number);
    match located(alloc, document, part, file_of(v))? {
        None => {
            let read = P::read_after(alloc, v, environment, before);
            located(alloc, document, part, read)
        }
        Some(file) => {
            let value = value_at(alloc, shelf, file, part)?;
            let read = P::read_after(alloc, &value, environment, before);
            located(alloc, file, part, read)
        }
    }
}
