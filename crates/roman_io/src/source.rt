//! Sources: places from which bytes are read.
ghost use Rattle.std.specs.Prelude.{◌≡◌, ℕ, ◌<◌, ◌≤◌, List, None, Option, length, IfOk};
ghost use Rattle.roman_io.specs.Faults.{HasCause};
ghost use Rattle.roman_io.specs.Shelf.{Texts};
ghost use Rattle.roman_io.specs.Source.{EndsAt, Takes};

use crate::failed::Failed;

/// A source of bytes, which gives each byte once. A source in memory exposes its remaining bytes to
/// contracts. An adapter to the input exposes nothing, and then contracts on content hold trivially.
pub trait Source {
    /// The bytes that the source hasn't given yet, if the type exposes them.
    ghost rest: { Self → Option (List ℕ) };

    /// The number of faults so far. The count never falls. It rises exactly in the calls that
    /// return [`Failed`], until it reaches `u64::MAX`.
    ghost faults: { Self → ℕ };

    /// The name, in proofs, of the borrow through which the source reads, or 0 if it borrows
    /// nothing.
    ghost borrowed: { Self → ℕ } = { λ _. 0 };

    /// The texts of the shelf that the source reads, if it reads one that exposes them.
    ghost texts: { Self → Option Texts } = { λ _. None };

    /// Moves bytes from the beginning of the rest to the beginning of `into`. Returns their number,
    /// at most the length of `into`. Returns 0 for a non-empty `into` exactly at the end of the rest.
    /// The bytes of `into` after the moved ones are unspecified.
    ///
    /// Fails only when the count of faults rises, and then leaves the rest unchanged.
    fn take(&mut self, into: &mut [u8]) -> Result<usize, Failed>
        ensures bound { IfOk result (λ n. n ≤ length into.new) }
        ensures moves { Takes (rest self.old) (rest self.new) into.new result }
        ensures ends { IfOk result (λ n. 0 < length into.new → EndsAt (rest self.old) n) }
        ensures borrowed { borrowed self.new ≡ borrowed self.old }
        ensures texts { texts self.new ≡ texts self.old }
        ensures cause { HasCause (faults self.old) (faults self.new) result };
}
