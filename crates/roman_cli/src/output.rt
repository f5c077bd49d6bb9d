//! Implements a sink over standard output.
ghost use Rattle.std.specs.Prelude.{None};

use roman_io::{Failed, Sink};
use std::io::{self, ErrorKind, Stdout, Write};

/// Standard output. Its model doesn't expose the bytes that were written. A put fails at the first
/// error of the system, or when the system takes nothing of a piece that isn't empty.
#[derive(Drop)]
pub struct StdSink {
    out: Stdout,
    faults: u64,
    is_closed: bool,
}

impl StdSink {
    /// Returns the process's standard output.
    pub fn new(rt: &HostRuntime) -> StdSink {
        StdSink {
            out: rt.stdout(),
            faults: 0,
            is_closed: false,
        }
    }

    /// Returns whether the last failed put failed because the reader of the output went away, for
    /// example at the other end of a pipe.
    pub fn is_closed(&self) -> bool {
        self.is_closed
    }
}

/// Returns whether a write failed because the reader went away.
fn is_of_closed_pipe(written: &io::Result<usize>) -> bool {
    match written {
        Ok(_) => false,
        Err(error) => error.kind() == ErrorKind::BrokenPipe,
    }
}

impl Sink for StdSink {
    ghost written = { λ _. None };

    ghost faults = { λ s. s.faults };

    fn put(&mut self, bytes: &[u8]) -> Result<(), Failed> {
        let mut rest = bytes;
        while !rest.is_empty() {
            match self.out.write(rest) {
                Ok(count) if count > 0 => rest = &rest[count..],
                written => {
                    self.is_closed = is_of_closed_pipe(&written);
                    self.faults = self.faults.saturating_add(1);
                    return Err(Failed);
                }
            }
        }
        Ok(())
    }
}

#[cfg(test)]
mod tests {
    use super::*;
    use std::test::Fail;

    /// `tests/test_edges.py` tests reading and writing on the built program.
    #[test]
    fn putting_is_no_fault(rt: HostRuntime) -> Result<(), Fail> {
        let mut out = StdSink::new(&rt);
        out.put(b"answer composition\n")?;
        out.put(b"")?;
        assert_eq!(rt; out.faults, 0);
        Ok(())
    }
}
