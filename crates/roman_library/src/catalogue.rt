//! The behaviours of a document, each written in place or in a file.
ghost use Rattle.std.specs.Prelude.{IfOk};
ghost use Rattle.serde_json.specs.View.{view};
ghost use Rattle.roman_library.specs.Documents.{catalogue_in};
ghost use Rattle.roman_library.specs.Library.{IsSmallCatalogue};
ghost use Rattle.roman_library.specs.PartLists.{LeavesTexts};
ghost use Rattle.roman_library.specs.Refusals.{LoadsFrom};

use crate::listing::{Listed, load_items};
use crate::locating::located;
use crate::names::place_of_behaviour;
use crate::refusal::{LoadError, Part};
use roman_io::Shelf;
use roman_model::MAX_BEHAVIOURS;
use roman_parts::{
    Behaviour, Environment, List, PartError, counted_member, read_behaviour, read_name, refused,
};
use roman_read::Kind;
use serde_json::Value;
use std::alloc::Global;

#[tactic(auto, unfolding(crate::specs::Documents::catalogue_in))]
/// Loads the behaviours of a document.
pub(crate) fn load_catalogue<F: Shelf>(
    alloc: Global,
    shelf: &mut F,
    document: &str,
    v: &Value,
    environment: &Environment,
) -> Result<Vec<Behaviour>, LoadError>
    ensures catalogue { LoadsFrom (F.texts shelf.old) (λ x. x.items) result
        (λ texts. catalogue_in texts document.now environment.now (view v.now)) }
    ensures known { IfOk result (λ catalogue. IsSmallCatalogue environment.now catalogue.items) }
    ensures shelf { LeavesTexts F.Shelf shelf.old shelf.new result }
{
    let items = counted_member(v, "behaviours", List::Behaviours, 0, MAX_BEHAVIOURS as u32);
    let items = located(alloc, document, Part::System, items)?;
    load_items(alloc, shelf, document, items, environment)
}

impl Listed for Behaviour {
    ghost use Rattle.roman_library.specs.Documents.{new_behaviour_of};
    ghost use Rattle.roman_library.specs.declared.refusal.Part.TheVariants as part;
    ghost use Rattle.roman_library.specs.Library.{IsCatalogue};

    ghost part_at = { part.Behaviour };

    ghost meaning = { new_behaviour_of };

    ghost are_known = { IsCatalogue };

    fn part(number: u32) -> Part {
        Part::Behaviour(number)
    }

    #[tactic(auto, unfolding(crate::specs::Documents::new_name_of, crate::specs::Documents::new_behaviour_of))]
    /// Reads a behaviour after the given ones. Checks first that its name is new.
    fn read_after(
        alloc: Global,
        v: &Value,
        environment: &Environment,
        before: &[Behaviour],
    ) -> Result<Behaviour, PartError> {
        if !v.is_object() {
            return Err(refused(Kind::Form, List::Whole, 0));
        }
        let name = read_name(v)?;
        if place_of_behaviour(before, name.bytes()).is_some() {
            return Err(refused(Kind::Repeated, List::Name, 0));
        }
        read_behaviour(alloc, v, environment)
    }
}
