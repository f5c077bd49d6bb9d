//! A shelf in memory whose calls can be made to fail.
ghost use Rattle.std.specs.Prelude.{◌≡◌, is_ok, Some, IfOk};
ghost use Rattle.roman_io.specs.Calls.{no_calls, CountsCall};
ghost use Rattle.roman_io.specs.Memory.{ShelfState, texts_of, can_fetch, fetched_count};
ghost use Rattle.roman_io.specs.ReadCalls.{IsFetch};

use crate::calls::Calls;
use crate::copying::{copy_from, find_text};
use crate::failed::Failed;
use crate::shelf::Shelf;
use std::marker::Model;

/// A shelf in memory, some of whose calls fail: the calls that are listed, and the calls that ask for
/// a name that no file has.
#[derive(Drop)]
pub struct MemShelf {
    files: Vec<(String, Vec<u8>)>,
    calls: Calls,
}

impl Model for MemShelf {
    ghost Value = { ShelfState };

    ghost view = { λ s. record { texts = texts_of s.files.items; calls = s.calls } };
}

impl MemShelf {
    /// Returns a shelf with these names and texts. The first file with a name hides later ones.
    /// `failing` lists the numbers of the fetches that are to fail, from 0. A fetch of a name that
    /// no file has fails too.
    pub fn new(files: Vec<(String, Vec<u8>)>, failing: Vec<u64>) -> MemShelf
        ensures { result ≡ record { texts = texts_of files.items; calls = no_calls failing.items } }
    {
        MemShelf {
            files,
            calls: Calls::new(failing),
        }
    }
}

impl Shelf for MemShelf {
    ghost texts = { λ s. Some s.texts };

    ghost faults = { λ s. s.calls.faults };

    fn fetch(&mut self, name: &str, at: u64, into: &mut [u8]) -> Result<usize, Failed>
        ensures fetches { IsFetch (Some self.old.texts) (Some self.new.texts) name.now at into.new result }
        ensures calls { CountsCall self.old.calls self.new.calls result }
        ensures fails { is_ok result ≡ can_fetch self.old name.now }
        ensures count { IfOk result (λ n. n ≡ fetched_count self.old.texts name.now at into.new) }
    {
        if self.calls.begin() {
            return Err(Failed);
        }
        match find_text(&self.files, name) {
            Some(text) => Ok(copy_from(text, at, into)),
            None => Err(self.calls.fail()),
        }
    }
}
