//! Parses texts into values.
ghost use Rattle.roman_read.specs.Json.{Parses, parse_error_number};
ghost use Rattle.std.specs.Prelude.{◌≡◌};

use serde_json::Value;
use std::alloc::Global;
use std::str;
use thiserror::Error;

/// Why a text wasn't parsed.
#[derive(Clone, Copy, Debug, PartialEq, Eq, Error)]
pub enum ParseError {
    /// The bytes aren't a JSON value.
    #[error("the text is no JSON value")]
    NotJson,
    /// Out of memory.
    #[error("there is no memory")]
    Memory,
}

impl ParseError {
    /// Returns the number of the error, 1 for `NotJson` and 2 for `Memory`.
    pub fn number(&self) -> u8
        ensures number { result ≡ parse_error_number self.now }
    {
        match self {
            ParseError::NotJson => 1,
            ParseError::Memory => 2,
        }
    }
}

/// Returns the JSON value (RFC 8259) of the bytes. Accepts at most 127 nested arrays and objects,
/// and no number beyond the range of an `f64`. If an object names a member twice, the last value
/// counts. Fails with `NotJson` exactly when the bytes aren't UTF-8 or `serde_json` reads no value
/// from them, and with `Memory` only when out of memory.
#[tactic(auto, using(crate::proofs::ReadingLemmas::texts))]
pub fn parse(alloc: Global, bytes: &[u8]) -> Result<Value, ParseError>
    ensures parse { Parses bytes.now result }
{
    let text = match str::from_utf8(bytes) {
        Ok(text) => text,
        Err(_) => return Err(ParseError::NotJson),
    };
    match Value::from_str(alloc, text) {
        Ok(value) => Ok(value),
        Err(error) if error.is_memory() => Err(ParseError::Memory),
        Err(_) => Err(ParseError::NotJson),
    }
}
