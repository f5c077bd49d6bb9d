//! Sinks: places to which bytes are written.
ghost use Rattle.std.specs.Prelude.{ℕ, List, Option};
ghost use Rattle.roman_io.specs.Faults.{HasCause};
ghost use Rattle.roman_io.specs.Sink.{Puts};

use crate::failed::Failed;

/// A place to which bytes are written. A sink in memory exposes the written bytes to contracts. An
/// adapter to the output exposes nothing, and then contracts on content hold trivially.
pub trait Sink {
    /// The bytes that were written, if the type exposes them.
    ghost written: { Self → Option (List ℕ) };

    /// The number of faults so far. The count never falls. It rises exactly in the calls that
    /// return [`Failed`], until it reaches `u64::MAX`.
    ghost faults: { Self → ℕ };

    /// Appends the whole piece, which may have any length. Fails only when the count of faults
    /// rises, and has then appended a prefix of the piece.
    fn put(&mut self, bytes: &[u8]) -> Result<(), Failed>
        ensures puts { Puts (written self.old) (written self.new) bytes.now result }
        ensures cause { HasCause (faults self.old) (faults self.new) result };
}
