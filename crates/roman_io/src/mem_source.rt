//! A source in memory whose calls can be made to fail.
ghost use Rattle.std.specs.Prelude.{◌≡◌, ◌+◌, ◌≤◌, not, length, is_ok, Some, drop, IfOk};
ghost use Rattle.roman_io.specs.Calls.{no_calls, is_failing, CountsCall};
ghost use Rattle.roman_io.specs.Memory.{SourceState, taken_count};
ghost use Rattle.roman_io.specs.ReadCalls.{IsTake};

use crate::calls::Calls;
use crate::copying::copy_piece;
use crate::failed::Failed;
use crate::source::Source;
use std::marker::Model;

/// A source in memory that gives its bytes in pieces, and some of whose calls fail.
#[derive(Drop)]
pub struct MemSource {
    bytes: Vec<u8>,
    taken: usize,
    piece: usize,
    calls: Calls,
}

impl Model for MemSource {
    ghost Value = { SourceState };

    ghost view = { λ s. record { rest = drop s.taken s.bytes.items; piece = s.piece; calls = s.calls } };

    ghost invariant = { λ s. (s.taken ≤ length s.bytes.items) × (1 ≤ s.piece) };
}

impl MemSource {
    /// Returns a source of these bytes. One take gives at most `piece` bytes, which must be at least
    /// 1. `failing` lists the numbers of the takes that are to fail, from 0.
    pub fn new(bytes: Vec<u8>, piece: usize, failing: Vec<u64>) -> MemSource
        requires { 1 ≤ piece }
        ensures { result ≡ record { rest = bytes.items; piece = piece; calls = no_calls failing.items } }
    {
        MemSource {
            bytes,
            taken: 0,
            piece,
            calls: Calls::new(failing),
        }
    }
}

impl Source for MemSource {
    ghost rest = { λ s. Some s.rest };

    ghost faults = { λ s. s.calls.faults };

    fn take(&mut self, into: &mut [u8]) -> Result<usize, Failed>
        ensures takes { IsTake (Some self.old.rest) (Some self.new.rest) into.new result }
        ensures calls { CountsCall self.old.calls self.new.calls result }
        ensures fails { is_ok result ≡ not (is_failing self.old.calls) }
        ensures count { IfOk result (λ n. n ≡ taken_count self.old into.new) }
        ensures piece { self.new.piece ≡ self.old.piece }
    {
        if self.calls.begin() {
            return Err(Failed);
        }
        let count = copy_piece(&self.bytes, self.taken, self.piece, into);
        self.taken += count;
        Ok(count)
    }
}
