//! The environment and the target of a document, each written in place or in a file.
ghost use Rattle.std.specs.Prelude.{IfOk};
ghost use Rattle.serde_json.specs.View.{view};
ghost use Rattle.roman_library.specs.Documents.{environment_in, target_in};
ghost use Rattle.roman_parts.specs.Named.{IsTarget};
ghost use Rattle.roman_library.specs.PartLists.{LeavesTexts};
ghost use Rattle.roman_library.specs.Refusals.{LoadsFrom};

use crate::locating::located;
use crate::part_file::{file_of, value_at};
use crate::refusal::{LoadError, Part};
use roman_io::Shelf;
use roman_parts::{Environment, List, PartError, Target, looked, read_environment, read_target};
use roman_read::member;
use serde_json::Value;
use std::alloc::Global;

#[tactic(auto, unfolding(crate::specs::Documents::environment_in, crate::specs::Documents::part_of))]
pub(crate) fn load_environment<F: Shelf>(
    alloc: Global,
    shelf: &mut F,
    document: &str,
    v: &Value,
) -> Result<Environment, LoadError>
    ensures environment { LoadsFrom (F.texts shelf.old) (λ x. x) result
        (λ texts. environment_in texts document.now (view v.now)) }
    ensures shelf { LeavesTexts F.Shelf shelf.old shelf.new result }
{
    let part = Part::Environment;
    let member = looked(member(v, "environment"), List::Whole, 0);
    let member = located(alloc, document, part, member)?;
    match located(alloc, document, part, file_of(member))? {
        None => located(alloc, document, part, read_environment(alloc, member)),
        Some(file) => {
            let value = value_at(alloc, shelf, file, part)?;
            located(alloc, file, part, read_environment(alloc, &value))
        }
    }
}

#[tactic(auto, using(roman_parts::proofs::CallerLemmas::target_known), unfolding(crate::specs::Documents::target_in, crate::specs::Documents::part_of))]
pub(crate) fn load_target<F: Shelf>(
    alloc: Global,
    shelf: &mut F,
    document: &str,
    v: &Value,
    environment: &Environment,
) -> Result<Target, LoadError>
    ensures target { LoadsFrom (F.texts shelf.old) (λ x. x) result
        (λ texts. target_in texts document.now environment.now (view v.now)) }
    ensures known { IfOk result (λ target. IsTarget environment.now target) }
    ensures shelf { LeavesTexts F.Shelf shelf.old shelf.new result }
{
    let part = Part::Target(0);
    let member = looked(member(v, "target"), List::Whole, 0);
    let member = located(alloc, document, part, member)?;
    match located(alloc, document, part, file_of(member))? {
        None => located(
            alloc,
            document,
            part,
            read_target(alloc, member, environment),
        ),
        Some(file) => {
            let value = value_at(alloc, shelf, file, part)?;
            located(alloc, file, part, read_target(alloc, &value, environment))
        }
    }
}
