//! Buffers a line until its end is read.
ghost use Rattle.std.specs.Prelude.{ℕ, ◌≡◌, ◌<◌, [], ◌++◌, List, length, IsTrue, ◌↔◌, MatchOption};
ghost use Rattle.roman_check.specs.Lines.{Holds};

/// The capacity of a line in bytes. Each line without a fault is shorter.
pub(crate) const ROOM: usize = 32;

/// The bytes of a line so far. Of a longer line than [`ROOM`] bytes, only the fact that it is too
/// long is stored.
#[derive(Drop)]
pub(crate) struct Line {
    pub(crate) bytes: [u8; ROOM],
    // the number of bytes, or `ROOM + 1` if they don't fit
    pub(crate) len: usize,
}

impl Line {
    pub(crate) fn new() -> Line
        ensures { Holds result [] }
    {
        Line {
            bytes: [0; ROOM],
            len: 0,
        }
    }

    pub(crate) fn extend(&mut self, more: &[u8])
        ensures { (bytes : List ℕ) → Holds self.old bytes → Holds self.new (bytes ++ more.now) }
    {
        if self.len > ROOM || more.len() > ROOM - self.len {
            self.len = ROOM + 1;
            return;
        }
        let end = self.len + more.len();
        self.bytes[self.len..end].copy_from_slice(more);
        self.len = end;
    }

    pub(crate) fn clear(&mut self)
        ensures { Holds self.new [] }
    {
        self.len = 0;
    }

    pub(crate) fn is_empty(&self) -> bool
        ensures { IsTrue result ↔ Holds self.now [] }
    {
        self.len == 0
    }

    /// Returns the bytes, or `None` if there are more than [`ROOM`].
    pub(crate) fn text(&self) -> Option<&[u8]>
        ensures { (bytes : List ℕ) → Holds self.now bytes → MatchOption result (ROOM < length bytes)
            (λ text. text.now ≡ bytes) }
    {
        if self.len > ROOM {
            None
        } else {
            Some(&self.bytes[..self.len])
        }
    }
}
