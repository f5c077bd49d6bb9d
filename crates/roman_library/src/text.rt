//! The JSON values of texts on a shelf.
ghost use Rattle.std.specs.Prelude.{◌≡◌};
ghost use Rattle.roman_library.specs.Texts.{Caused, IsTextOf, IsValueOf, doc_error_number};

use roman_io::Shelf;
use roman_model::{MAX_DOCUMENT_BYTES, PIECE_BYTES};
use roman_read::{ParseError, parse};
use serde_json::Value;
use std::alloc::{AllocError, Global};
use thiserror::Error;

/// Why no JSON value was read from a text on a shelf.
#[derive(Clone, Copy, Debug, PartialEq, Eq, Error)]
pub enum DocError {
    /// The shelf failed.
    #[error("the shelf failed")]
    Fault,
    /// The text has more than [`MAX_DOCUMENT_BYTES`] bytes.
    #[error("the text has too many bytes")]
    TooLong,
    /// The text isn't a JSON value.
    #[error("the text is no JSON value")]
    NotJson,
    /// Out of memory.
    #[error("there is no memory")]
    Memory,
}

impl DocError {
    /// Returns the number of the error, from 1 to 4 in the order of the variants.
    pub fn number(&self) -> u8
        ensures number { result ≡ doc_error_number self.now }
    {
        match self {
            DocError::Fault => 1,
            DocError::TooLong => 2,
            DocError::NotJson => 3,
            DocError::Memory => 4,
        }
    }
}

impl From<AllocError> for DocError {
    ghost use Rattle.roman_library.specs.declared.text.DocError.TheVariants.{Memory};

    ghost from_gives = { λ _ error. error ≡ Memory };

    fn from(_error: AllocError) -> DocError {
        DocError::Memory
    }
}

/// Returns the JSON value (RFC 8259) of the text with this name. Fetches the text in pieces of 4,096
/// bytes, to its end or just past the greatest size of a document.
///
/// Fails with `Fault` only when the shelf failed and its count of faults rose. Fails with `TooLong`
/// exactly when byte 1,048,577 of the text was fetched. Fails with `NotJson` exactly when the text
/// was read to its end and `serde_json` reads no value from it. Fails with `Memory` only when out
/// of memory.
pub fn document<F: Shelf>(alloc: Global, shelf: &mut F, name: &str) -> Result<Value, DocError>
    ensures value { IsValueOf (F.texts shelf.old) name.now result }
    ensures texts { F.texts shelf.new ≡ F.texts shelf.old }
    ensures cause { Caused (F.faults shelf.old) (F.faults shelf.new) result }
{
    let text = whole_text(alloc, shelf, name)?;
    match parse(alloc, &text) {
        Ok(value) => Ok(value),
        Err(ParseError::NotJson) => Err(DocError::NotJson),
        Err(ParseError::Memory) => Err(DocError::Memory),
    }
}

/// Returns the bytes of the text with this name.
#[tactic(auto, using(crate::proofs::PrefixLemmas::fetched_more))]
fn whole_text<F: Shelf>(alloc: Global, shelf: &mut F, name: &str) -> Result<Vec<u8>, DocError>
    ensures text { IsTextOf (F.texts shelf.old) name.now result }
    ensures texts { F.texts shelf.new ≡ F.texts shelf.old }
    ensures cause { Caused (F.faults shelf.old) (F.faults shelf.new) result }
{
    let mut text = Vec::new(alloc);
    let mut piece = [0u8; PIECE_BYTES];
    'pieces: while text.len() as u64 <= MAX_DOCUMENT_BYTES {
        let count = match shelf.fetch(name, text.len() as u64, &mut piece) {
            Ok(count) => count,
            Err(_) => return Err(DocError::Fault),
        };
        if count == 0 {
            return Ok(text);
        }
        text.extend_from_slice(&piece[..count])?;
    }
    Err(DocError::TooLong)
}
