//! A sink in memory whose calls can be made to fail.
ghost use Rattle.std.specs.Prelude.{◌≡◌, [], Some, false, OnOk, OnErr};
ghost use Rattle.roman_io.specs.Calls.{no_calls, is_failing, CountsCall};
ghost use Rattle.roman_io.specs.Memory.{SinkState, AppendsHalf};
ghost use Rattle.roman_io.specs.Sink.{Puts};

use crate::calls::Calls;
use crate::copying::append_half;
use crate::failed::Failed;
use crate::sink::Sink;
use std::alloc::Global;
use std::marker::Model;

/// A sink in memory, some of whose calls fail: the calls that are listed, and the calls that run out
/// of memory.
#[derive(Drop)]
pub struct MemSink {
    written: Vec<u8>,
    calls: Calls,
}

impl Model for MemSink {
    ghost Value = { SinkState };

    ghost view = { λ s. record { written = s.written.items; calls = s.calls } };
}

impl MemSink {
    /// Returns an empty sink. Takes no memory. `failing` lists the numbers of the puts that are to
    /// fail, from 0.
    pub fn new(alloc: Global, failing: Vec<u64>) -> MemSink
        ensures { result ≡ record { written = []; calls = no_calls failing.items } }
    {
        MemSink {
            written: Vec::new(alloc),
            calls: Calls::new(failing),
        }
    }

    /// Returns the bytes that were written, including those of failed calls.
    pub fn bytes(&self) -> &[u8]
        ensures { result.now ≡ self.now.written }
    {
        &self.written
    }
}

impl Sink for MemSink {
    ghost written = { λ s. Some s.written };

    ghost faults = { λ s. s.calls.faults };

    /// Appends the piece. A call that is to fail still appends the first half of its piece, rounded
    /// down, unless it runs out of memory. Any other call that runs out of memory fails, and leaves
    /// the bytes as they were.
    fn put(&mut self, bytes: &[u8]) -> Result<(), Failed>
        ensures puts { Puts (Some self.old.written) (Some self.new.written) bytes.now result }
        ensures calls { CountsCall self.old.calls self.new.calls result }
        ensures fails { OnOk result (is_failing self.old.calls ≡ false) }
        ensures half { OnErr result (AppendsHalf self.old self.new bytes.now) }
    {
        if self.calls.begin() {
            append_half(&mut self.written, bytes);
            return Err(Failed);
        }
        if self.written.extend_from_slice(bytes).is_err() {
            return Err(self.calls.fail());
        }
        Ok(())
    }
}
