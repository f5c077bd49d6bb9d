//! The values of documents and part files.
ghost use Rattle.std.specs.Prelude.{◌≡◌, option_map};
ghost use Rattle.serde_json.specs.View.{view};
ghost use Rattle.roman_parts.specs.Reading.{Gives};
ghost use Rattle.roman_library.specs.Documents.{file_in, file_of, value_at};
ghost use Rattle.roman_library.specs.Refusals.{LoadsFrom, CausesLoad};

use crate::locating::located;
use crate::refusal::{LoadError, Part};
use crate::text::{DocError, document};
use roman_io::Shelf;
use roman_model::MAX_FILE_NAME_BYTES;
use roman_parts::{List, PartError, looked, refused};
use roman_read::{Kind, member, text};
use serde_json::Value;
use std::alloc::Global;

#[tactic(auto, unfolding(crate::specs::Documents::file_of))]
/// Returns the name of the file that has a part, or `None` if the part is written in place.
pub(crate) fn file_of(v: &Value) -> Result<Option<&str>, PartError>
    ensures { Gives (λ x. option_map (λ file. file.now) x) result (file_of (view v.now)) }
{
    match member(v, "file") {
        Ok(file) => file_at(file),
        Err(_) => Ok(None),
    }
}

#[tactic(auto, unfolding(crate::specs::Documents::file_in))]
/// Reads the name of a part file.
fn file_at(v: &Value) -> Result<Option<&str>, PartError>
    ensures { Gives (λ x. option_map (λ file. file.now) x) result (file_in (view v.now)) }
{
    let file = looked(text(v), List::File, 0)?;
    if file.is_empty() {
        return Err(refused(Kind::BadName, List::File, 0));
    }
    if file.len() > MAX_FILE_NAME_BYTES as usize {
        return Err(refused(Kind::BadName, List::File, 0));
    }
    Ok(Some(file))
}

#[tactic(auto, unfolding(crate::specs::Documents::value_at))]
/// Fetches and parses a document or a part file.
pub(crate) fn value_at<F: Shelf>(
    alloc: Global,
    shelf: &mut F,
    name: &str,
    part: Part,
) -> Result<Value, LoadError>
    ensures value { LoadsFrom (F.texts shelf.old) view result (λ texts. value_at texts name.now part) }
    ensures texts { F.texts shelf.new ≡ F.texts shelf.old }
    ensures cause { CausesLoad (F.faults shelf.old) (F.faults shelf.new) result }
{
    let kind = match document(alloc, shelf, name) {
        Ok(value) => return Ok(value),
        Err(DocError::Fault) => return Err(LoadError::Fault),
        Err(DocError::Memory) => return Err(LoadError::Memory),
        Err(DocError::TooLong) => Kind::TooLong,
        Err(DocError::NotJson) => Kind::NotJson,
    };
    located(alloc, name, part, Err(refused(kind, List::Whole, 0)))
}
