//! A shelf in memory that never fails.
ghost use Rattle.std.specs.Prelude.{◌≡◌, Some, IfOk, IsOk};
ghost use Rattle.roman_io.specs.Faults.{HasCause};
ghost use Rattle.roman_io.specs.Memory.{texts_of, fetched_count};
ghost use Rattle.roman_io.specs.ReadCalls.{IsFetch};
ghost use Rattle.roman_io.specs.Shelf.{Texts};

use crate::copying::{copy_from, find_text};
use crate::failed::Failed;
use crate::shelf::Shelf;
use std::marker::Model;

/// A shelf in memory that never fails.
#[derive(Drop)]
pub struct QuietShelf {
    files: Vec<(String, Vec<u8>)>,
}

impl Model for QuietShelf {
    ghost Value = { Texts };

    ghost view = { λ s. texts_of s.files.items };
}

impl QuietShelf {
    /// Returns a shelf with these names and texts. The first file with a name hides later ones. The
    /// text of any other name is empty. The count of faults is always 0.
    pub fn new(files: Vec<(String, Vec<u8>)>) -> QuietShelf
        ensures { result ≡ texts_of files.items }
    {
        QuietShelf { files }
    }
}

impl Shelf for QuietShelf {
    ghost texts = { λ s. Some s };

    ghost faults = { λ _. 0 };

    fn fetch(&mut self, name: &str, at: u64, into: &mut [u8]) -> Result<usize, Failed>
        ensures fetches { IsFetch (Some self.old) (Some self.new) name.now at into.new result }
        ensures cause { HasCause 0 0 result }
        ensures ok { IsOk result }
        ensures count { IfOk result (λ n. n ≡ fetched_count self.old name.now at into.new) }
    {
        let text = find_text(&self.files, name).unwrap_or(&[]);
        Ok(copy_from(text, at, into))
    }
}
