//! The parts of a document with one target, or with several.
ghost use Rattle.std.specs.Prelude.{◌≡◌, IfOk};
ghost use Rattle.serde_json.specs.View.{view};
ghost use Rattle.roman_parts.specs.Reading.{Gives};
ghost use Rattle.roman_multi.specs.Combining.{plain_combined};
ghost use Rattle.roman_library.specs.Documents.{broken_rule, combined_of, parts_in, targets_in};
ghost use Rattle.roman_library.specs.Library.{ArePartsOf, AreTargets, IsCatalogue};
ghost use Rattle.roman_library.specs.PartLists.{LeavesTexts};
ghost use Rattle.roman_library.specs.Refusals.{LoadsFrom};

use crate::listing::{Listed, load_items};
use crate::locating::located;
use crate::names::place_of_target;
use crate::parts::load_target;
use crate::refusal::{LoadError, Part};
use roman_io::Shelf;
use roman_multi::{CombineError, Combined, Named, combine};
use roman_parts::{
    Behaviour, Environment, List, PartError, counted_member, read_name, read_target, refused,
};
use roman_read::Kind;
use serde_json::Value;
use std::alloc::Global;

/// The least number of targets in a document with several targets.
const FEWEST: u32 = 2;

/// The greatest number of targets in a document with several targets.
const MOST: u32 = 4;

/// The version of documents with several targets.
const SEVERAL: u64 = 3;

#[tactic(auto, unfolding(crate::specs::Documents::parts_in))]
/// Loads the environment, the catalogue and the target of a document. In the version with several
/// targets these are the parts that combine them.
pub(crate) fn load_parts<F: Shelf>(
    alloc: Global,
    shelf: &mut F,
    document: &str,
    v: &Value,
    version: u64,
    environment: Environment,
    catalogue: Vec<Behaviour>,
) -> Result<Combined, LoadError>
    requires catalogue { IsCatalogue environment catalogue.items }
    ensures parts { LoadsFrom (F.texts shelf.old) plain_combined result
        (λ texts. parts_in texts document.now version environment catalogue.items (view v.now)) }
    ensures known { IfOk result (λ made. ArePartsOf catalogue.items (plain_combined made)) }
    ensures shelf { LeavesTexts F.Shelf shelf.old shelf.new result }
{
    environment.known(); // the environment is well formed
    if version == SEVERAL {
        let targets = load_targets(alloc, shelf, document, v, &environment)?;
        let made = combine_targets(alloc, &environment, &catalogue, &targets);
        return located(alloc, document, Part::System, made);
    }
    let target = load_target(alloc, shelf, document, v, &environment)?;
    Ok(Combined {
        environment,
        catalogue,
        target,
    })
}

#[tactic(auto, unfolding(crate::specs::Documents::targets_in))]
fn load_targets<F: Shelf>(
    alloc: Global,
    shelf: &mut F,
    document: &str,
    v: &Value,
    environment: &Environment,
) -> Result<Vec<Named>, LoadError>
    ensures targets { LoadsFrom (F.texts shelf.old) (λ x. x.items) result
        (λ texts. targets_in texts document.now environment.now (view v.now)) }
    ensures known { IfOk result (λ targets. AreTargets environment.now targets.items) }
    ensures shelf { LeavesTexts F.Shelf shelf.old shelf.new result }
{
    let items = counted_member(v, "targets", List::Targets, FEWEST, MOST);
    let items = located(alloc, document, Part::System, items)?;
    load_items(alloc, shelf, document, items, environment)
}

impl Listed for Named {
    ghost use Rattle.std.specs.Prelude.{All};
    ghost use Rattle.roman_library.specs.Documents.{named_target_of};
    ghost use Rattle.roman_library.specs.declared.refusal.Part.TheVariants as part;
    ghost use Rattle.roman_parts.specs.Named.{IsTarget};

    ghost part_at = { part.Target };

    ghost meaning = { named_target_of };

    ghost are_known = { λ env targets. All (λ named. IsTarget env named.target) targets };

    fn part(number: u32) -> Part {
        Part::Target(number)
    }

    #[tactic(auto, unfolding(crate::specs::Documents::new_name_of, crate::specs::Documents::named_target_of))]
    /// Reads a target after the given ones. Checks first that its name is new.
    fn read_after(
        alloc: Global,
        v: &Value,
        environment: &Environment,
        before: &[Named],
    ) -> Result<Named, PartError> {
        if !v.is_object() {
            return Err(refused(Kind::Form, List::Whole, 0));
        }
        let name = read_name(v)?;
        if place_of_target(before, name.bytes()).is_some() {
            return Err(refused(Kind::Repeated, List::Name, 0));
        }
        let target = read_target(alloc, v, environment)?;
        Ok(Named { name, target })
    }
}

/// Combines the targets into one, with the environment and the catalogue over its actions.
fn combine_targets(
    alloc: Global,
    environment: &Environment,
    catalogue: &[Behaviour],
    targets: &[Named],
) -> Result<Combined, PartError>
    requires catalogue { IsCatalogue environment.now catalogue.now }
    requires targets { AreTargets environment.now targets.now }
    ensures parts { Gives plain_combined result (combined_of environment.now catalogue.now targets.now) }
    ensures known { IfOk result (λ made. ArePartsOf catalogue.now (plain_combined made)) }
{
    environment.known(); // the environment is well formed
    match combine(alloc, environment, catalogue, targets) {
        Ok(made) => Ok(made),
        Err(error) => Err(broken_rule(error)),
    }
}

/// Returns the refusal for a broken rule on combined states and actions.
fn broken_rule(error: CombineError) -> PartError
    ensures { result ≡ broken_rule error }
{
    let (kind, index) = match error {
        CombineError::States => (Kind::Count, 1),
        CombineError::Actions => (Kind::Count, 2),
        CombineError::LongName => (Kind::BadName, 3),
        CombineError::Repeated => (Kind::Repeated, 4),
        CombineError::Memory => return PartError::Memory,
    };
    PartError::Refused {
        kind,
        list: List::Targets,
        index,
    }
}
