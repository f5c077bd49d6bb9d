//! A text of a shelf, read as a source.
ghost use Rattle.std.specs.Prelude.{◌≡◌};
ghost use Rattle.roman_io.specs.Shelf.{rest_from};

use crate::failed::Failed;
use crate::shelf::Shelf;
use crate::source::Source;

/// One text of a shelf, as a source. Each take is a fetch at the place where the last one ended. The
/// faults of the source are the faults of the shelf.
pub struct ShelfSource<'a, F: Shelf> {
    /// The shelf that the source reads.
    pub shelf: &'a mut F,
    /// The name of the text.
    pub name: &'a str,
    /// The number of bytes that were taken. The next take begins there.
    pub at: u64,
}

impl<'a, F: Shelf> ShelfSource<'a, F> {
    /// Returns a source of the whole text `name` of the shelf.
    pub fn new(shelf: &'a mut F, name: &'a str) -> ShelfSource<'a, F>
        ensures shelf { result.shelf.now ≡ shelf.old }
        ensures same_reference { result.shelf.ghost_name ≡ shelf.entry.ghost_name }
        ensures name { result.name.now ≡ name.now }
        ensures at { result.at ≡ 0 }
    {
        ShelfSource { shelf, name, at: 0 }
    }
}

impl<'a, F: Shelf> Drop for ShelfSource<'a, F> {
    fn drop(self)
        ensures { self.exit.0.now ≡ self.entry.shelf.now }
    {
        let ShelfSource {
            shelf: _,
            name: _,
            at: _,
        } = self;
    }
}

impl<'a, F: Shelf> Source for ShelfSource<'a, F> {
    ghost rest = { λ s. rest_from (F.texts s.shelf.now) s.name.now s.at };

    ghost faults = { λ s. F.faults s.shelf.now };

    ghost borrowed = { λ s. s.shelf.ghost_name };

    ghost texts = { λ s. F.texts s.shelf.now };

    fn take(&mut self, into: &mut [u8]) -> Result<usize, Failed> {
        let count = self.shelf.fetch(self.name, self.at, into)?;
        self.at = self.at.saturating_add(count as u64);
        Ok(count)
    }
}
