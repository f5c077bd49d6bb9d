//! Shelves: places with texts by name.
ghost use Rattle.std.specs.Prelude.{◌≡◌, ℕ, ◌≤◌, Option, length, IfOk, IfSome};
ghost use Rattle.roman_io.specs.Faults.{HasCause};
ghost use Rattle.roman_io.specs.Shelf.{Fetches, Texts, shelf_text};

use crate::failed::Failed;

/// Texts by name, each shorter than 2^63 bytes. No call changes them. A shelf in memory exposes its
/// texts to contracts. An adapter to files exposes nothing, and then contracts on content hold
/// trivially.
pub trait Shelf {
    /// The names with their texts, if the type exposes them. Of two texts with one name the first
    /// counts.
    ghost texts: { Self → Option Texts };

    /// The number of faults so far. The count never falls. It rises exactly in the calls that
    /// return [`Failed`], until it reaches `u64::MAX`.
    ghost faults: { Self → ℕ };

    /// Copies bytes of the text `name`, from byte `at` on, counted from 0, to the beginning of
    /// `into`. Returns their number, at most the length of `into`. Returns 0 for a non-empty `into`
    /// exactly at or past the end of the text. The bytes of `into` after the copied ones are
    /// unspecified. A name without a text stands for the empty text, if the call doesn't fail.
    ///
    /// Fails only when the count of faults rises.
    fn fetch(&mut self, name: &str, at: u64, into: &mut [u8]) -> Result<usize, Failed>
        ensures bound { IfOk result (λ n. n ≤ length into.new) }
        ensures bytes { IfSome (texts self.old) (λ ts. IfOk result (Fetches (shelf_text ts name.now) at into.new)) }
        ensures texts { texts self.new ≡ texts self.old }
        ensures cause { HasCause (faults self.old) (faults self.new) result };
}
