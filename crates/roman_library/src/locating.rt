//! Refusals of parts, with their document and part.
ghost use Rattle.roman_library.specs.Refusals.{Locates, LocatesError};

use crate::file_name::FileName;
use crate::refusal::{LoadError, Part, Refusal};
use roman_parts::PartError;
use std::alloc::Global;

/// Returns the value that was read, or the refusal with its document and part.
pub(crate) fn located<T>(
    alloc: Global,
    document: &str,
    part: Part,
    read: Result<T, PartError>,
) -> Result<T, LoadError>
    ensures { Locates document.now part read result }
{
    match read {
        Ok(value) => Ok(value),
        Err(error) => Err(locate_error(alloc, document, part, error)),
    }
}

/// Returns the refusal with its document and part.
fn locate_error(alloc: Global, document: &str, part: Part, error: PartError) -> LoadError
    ensures { LocatesError document.now part error result }
{
    let (kind, list, index) = match error {
        PartError::Refused { kind, list, index } => (kind, list, index),
        PartError::Memory => return LoadError::Memory,
    };
    match FileName::new(alloc, document) {
        Ok(document) => LoadError::Refused(Refusal {
            document,
            kind,
            part,
            list,
            index,
        }),
        Err(_) => LoadError::Memory,
    }
}
