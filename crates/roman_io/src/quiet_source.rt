//! A source in memory that never fails.
ghost use Rattle.std.specs.Prelude.{◌≡◌, ℕ, ◌≤◌, List, min, length, drop, Some, IfOk, IsOk};
ghost use Rattle.roman_io.specs.Faults.{HasCause};
ghost use Rattle.roman_io.specs.ReadCalls.{IsTake};

use crate::copying::copy_rest;
use crate::failed::Failed;
use crate::source::Source;
use std::marker::Model;

/// A source in memory that never fails. Each take fills its whole piece, unless fewer bytes are
/// left.
#[derive(Drop)]
pub struct QuietSource {
    bytes: Vec<u8>,
    taken: usize,
}

impl Model for QuietSource {
    ghost Value = { List ℕ };

    ghost view = { λ s. drop s.taken s.bytes.items };

    ghost invariant = { λ s. s.taken ≤ length s.bytes.items };
}

impl QuietSource {
    /// Returns a source of these bytes. The count of faults is always 0.
    pub fn new(bytes: Vec<u8>) -> QuietSource
        ensures { result ≡ bytes.items }
    {
        QuietSource { bytes, taken: 0 }
    }
}

impl Source for QuietSource {
    ghost rest = { λ s. Some s };

    ghost faults = { λ _. 0 };

    fn take(&mut self, into: &mut [u8]) -> Result<usize, Failed>
        ensures takes { IsTake (Some self.old) (Some self.new) into.new result }
        ensures cause { HasCause 0 0 result }
        ensures ok { IsOk result }
        ensures count { IfOk result (λ n. n ≡ min (length self.old) (length into.new)) }
    {
        let count = copy_rest(&self.bytes, self.taken, into);
        self.taken += count;
        Ok(count)
    }
}
