//! A source without an end.
ghost use Rattle.std.specs.Prelude.{◌≡◌, ℕ, length, replicate, None, Ok};
ghost use Rattle.roman_io.specs.Faults.{HasCause};
ghost use Rattle.roman_io.specs.ReadCalls.{IsTake};

use crate::failed::Failed;
use crate::source::Source;
use std::marker::Model;

/// A source that gives one byte again and again, without an end. Each take fills its whole piece. The
/// count of faults is always 0.
#[derive(Drop)]
pub struct EndlessSource {
    byte: u8,
}

impl Model for EndlessSource {
    ghost Value = { ℕ };

    ghost view = { λ s. s.byte };
}

impl EndlessSource {
    /// Returns a source of this byte.
    pub fn new(byte: u8) -> EndlessSource
        ensures { result ≡ byte }
    {
        EndlessSource { byte }
    }
}

impl Source for EndlessSource {
    ghost rest = { λ _. None };

    ghost faults = { λ _. 0 };

    fn take(&mut self, into: &mut [u8]) -> Result<usize, Failed>
        ensures takes { IsTake None None into.new result }
        ensures cause { HasCause 0 0 result }
        ensures fills { into.new ≡ replicate (length into.old) self.old }
        ensures count { result ≡ Ok (length into.old) }
        ensures same { self.new ≡ self.old }
    {
        let byte = self.byte;
        into.fill(byte);
        Ok(into.len())
    }
}
