//! The version of a document, and its limit on cells.
ghost use Rattle.std.specs.Prelude.{◌<◌, ◌≤◌, IfOk};
ghost use Rattle.serde_json.specs.View.{view};
ghost use Rattle.roman_parts.specs.Reading.{Gives};
ghost use Rattle.roman_library.specs.Documents.{version_of, limit_of, limit_in};

use roman_model::{DEFAULT_CELLS, MAX_CELLS};
use roman_parts::{List, PartError, looked, refused};
use roman_read::{Kind, member, number};
use serde_json::Value;

/// The newest version of documents.
const NEWEST: u64 = 3;

#[tactic(auto, unfolding(crate::specs::Documents::version_of))]
pub(crate) fn read_version(v: &Value) -> Result<u64, PartError>
    ensures { Gives (λ x. x) result (version_of (view v.now)) }
{
    if !v.is_object() {
        return Err(refused(Kind::Form, List::Whole, 0));
    }
    let roman = looked(member(v, "roman"), List::Roman, 0)?;
    let version = looked(number(roman), List::Roman, 0)?;
    if version < 1 {
        return Err(refused(Kind::Version, List::Roman, 0));
    }
    if version > NEWEST {
        return Err(refused(Kind::Version, List::Roman, 0));
    }
    Ok(version)
}

#[tactic(auto, unfolding(crate::specs::Documents::limit_of))]
/// Reads the limit on cells, or returns the default if the document has none.
pub(crate) fn read_limit(v: &Value) -> Result<u32, PartError>
    ensures limit { Gives (λ x. x) result (limit_of (view v.now)) }
    ensures within { IfOk result (λ limit. (0 < limit) × (limit ≤ MAX_CELLS)) }
{
    match member(v, "limit") {
        Ok(limit) => limit_at(limit),
        Err(_) => Ok(DEFAULT_CELLS),
    }
}

#[tactic(auto, unfolding(crate::specs::Documents::limit_in))]
/// Reads a limit that the document has.
fn limit_at(v: &Value) -> Result<u32, PartError>
    ensures limit { Gives (λ x. x) result (limit_in (view v.now)) }
    ensures within { IfOk result (λ limit. (0 < limit) × (limit ≤ MAX_CELLS)) }
{
    let limit = looked(number(v), List::Limit, 0)?;
    if limit < 1 {
        return Err(refused(Kind::Count, List::Limit, 0));
    }
    if limit > u64::from(MAX_CELLS) {
        return Err(refused(Kind::Count, List::Limit, 0));
    }
    Ok(limit as u32)
}
