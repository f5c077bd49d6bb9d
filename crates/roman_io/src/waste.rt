//! A sink that discards its bytes.
ghost use Rattle.std.specs.Prelude.{None, IsOk};
ghost use Rattle.roman_io.specs.Faults.{HasCause};
ghost use Rattle.roman_io.specs.Sink.{Puts};

use crate::failed::Failed;
use crate::sink::Sink;

/// A sink that discards all bytes that are put into it, and exposes nothing. The count of faults is
/// always 0.
#[derive(Drop)]
pub struct Waste {}

impl Waste {
    /// Returns a sink. Takes no memory.
    pub fn new() -> Waste {
        Waste {}
    }
}

impl Sink for Waste {
    ghost written = { λ _. None };

    ghost faults = { λ _. 0 };

    fn put(&mut self, _bytes: &[u8]) -> Result<(), Failed>
        ensures puts { Puts None None _bytes.now result }
        ensures cause { HasCause 0 0 result }
        ensures ok { IsOk result }
    {
        Ok(())
    }
}
