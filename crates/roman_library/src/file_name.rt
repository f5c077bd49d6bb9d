//! Names of documents.
ghost use Rattle.std.specs.Prelude.{◌≡◌, IfOk};

use std::alloc::{AllocError, Global};
use std::marker::Model;

/// The name of a document or a part file on a shelf. Contracts see the list of its bytes.
#[derive(Debug, Drop)]
pub struct FileName {
    bytes: Vec<u8>,
}

impl Model for FileName {
    ghost use Rattle.std.specs.Prelude.{ℕ, List};

    ghost Value = { List ℕ };

    ghost view = { λ name. name.bytes.items };
}

impl FileName {
    /// Returns a copy of the name. Fails only when out of memory.
    pub fn new(alloc: Global, name: &str) -> Result<FileName, AllocError>
        ensures name { IfOk result (λ made. made ≡ name.now) }
    {
        let bytes = Vec::from_slice(alloc, name.as_bytes())?;
        Ok(FileName { bytes })
    }

    /// Returns the bytes of the name.
    pub fn bytes(&self) -> &[u8]
        ensures bytes { result.now ≡ self.now }
    {
        &self.bytes
    }
}
