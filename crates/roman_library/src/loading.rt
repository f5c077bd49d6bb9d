//! Loads libraries from documents.
ghost use Rattle.std.specs.Prelude.{◌≡◌, IfOk, IfSome};
ghost use Rattle.serde_json.specs.View.{view};
ghost use Rattle.roman_library.specs.Documents.{library_in, library_of};
ghost use Rattle.roman_library.specs.Library.{IsLibrary, plain};
ghost use Rattle.roman_library.specs.Refusals.{Loads, LoadsFrom, CausesLoad};

use crate::catalogue::load_catalogue;
use crate::header::{read_limit, read_version};
use crate::library::Library;
use crate::locating::located;
use crate::part_file::value_at;
use crate::parts::load_environment;
use crate::refusal::{LoadError, Part};
use crate::services::read_services;
use crate::targets::load_parts;
use roman_io::Shelf;
use serde_json::Value;
use std::alloc::Global;

#[tactic(auto, using(crate::proofs::LocatedLemmas::where_told), unfolding(crate::specs::Documents::library_of))]
/// Loads the library of the system document with this name, with the part files that it names.
///
/// Fails with `Refused` exactly when the document breaks a rule, and names the first broken one in the
/// order of the format. Fails with `Fault` only when the shelf failed and its count of faults rose.
/// Fails with `Memory` only when out of memory. Leaves the texts of the shelf unchanged.
pub fn load<F: Shelf>(alloc: Global, shelf: &mut F, name: &str) -> Result<Library, LoadError>
    ensures meaning { IfSome (F.texts shelf.old) (λ texts. Loads plain result (library_of texts name.now)) }
    ensures known { IfOk result (λ library. IsLibrary (plain library)) }
    ensures texts { F.texts shelf.new ≡ F.texts shelf.old }
    ensures cause { CausesLoad (F.faults shelf.old) (F.faults shelf.new) result }
{
    let value = value_at(alloc, shelf, name, Part::System)?;
    load_library(alloc, shelf, name, &value)
}

#[tactic(auto, unfolding(crate::specs::Documents::library_in))]
/// Loads the library from the value of a document.
fn load_library<F: Shelf>(
    alloc: Global,
    shelf: &mut F,
    document: &str,
    v: &Value,
) -> Result<Library, LoadError>
    ensures meaning { LoadsFrom (F.texts shelf.old) plain result (λ texts. library_in texts document.now (view v.now)) }
    ensures known { IfOk result (λ library. IsLibrary (plain library)) }
    ensures texts { F.texts shelf.new ≡ F.texts shelf.old }
    ensures cause { CausesLoad (F.faults shelf.old) (F.faults shelf.new) result }
{
    let version = located(alloc, document, Part::System, read_version(v))?;
    let limit = located(alloc, document, Part::System, read_limit(v))?;
    let environment = load_environment(alloc, shelf, document, v)?;
    let catalogue = load_catalogue(alloc, shelf, document, v, &environment)?;
    let services = read_services(alloc, document, v, version, &catalogue)?;
    let parts = load_parts(alloc, shelf, document, v, version, environment, catalogue)?;
    Ok(Library {
        environment: parts.environment,
        catalogue: parts.catalogue,
        services,
        target: parts.target,
        limit,
    })
}
