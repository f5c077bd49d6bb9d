//! Implements a source over standard input.
ghost use Rattle.std.specs.Prelude.{None};

use roman_io::{Failed, Source};
use std::io::{Read, Stdin};

/// Standard input. Its model doesn't expose the bytes that arrive. A take fails at the first error
/// of the system.
#[derive(Drop)]
pub struct StdSource {
    input: Stdin,
    faults: u64,
}

impl StdSource {
    /// Returns the process's standard input.
    pub fn new(rt: &HostRuntime) -> StdSource {
        StdSource {
            input: rt.stdin(),
            faults: 0,
        }
    }
}

impl Source for StdSource {
    ghost rest = { λ _. None };

    ghost faults = { λ s. s.faults };

    fn take(&mut self, into: &mut [u8]) -> Result<usize, Failed> {
        match self.input.read(into) {
            Ok(count) => Ok(count),
            Err(_) => {
                self.faults = self.faults.saturating_add(1);
                Err(Failed)
            }
        }
    }
}

#[cfg(test)]
mod tests {
    use super::*;
    use std::test::Fail;

    /// `tests/test_edges.py` tests reading and writing on the built program.
    #[test]
    fn taking_into_no_place_is_no_fault(rt: HostRuntime) -> Result<(), Fail> {
        let mut input = StdSource::new(&rt);
        assert_eq!(rt; input.take(&mut [])?, 0);
        assert_eq!(rt; input.faults, 0);
        Ok(())
    }
}
