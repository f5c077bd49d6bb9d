//! Builds the bytes of one line in an array.
ghost use Rattle.std.specs.Prelude.{◌≡◌, ℕ, ◌+◌, ◌≤◌, ◌++◌, [], length, decimal};

use itoa::Buffer;
use roman_read::Name;
use std::marker::Model;

/// The greatest number of bytes of a piece, of a [`Reply`](crate::Reply) and of a
/// [`ReportLine`](crate::ReportLine).
pub(crate) const LONGEST: usize = 128;

/// A text of at most 128 bytes, built from parts. Contracts see the list of its bytes.
#[derive(Drop)]
pub struct Piece {
    bytes: [u8; LONGEST],
    len: usize,
}

impl Model for Piece {
    ghost use Rattle.std.specs.Prelude.{List, ℕ, ◌≤◌, take};

    ghost Value = { List ℕ };

    ghost view = { λ p. take p.len p.bytes };

    ghost invariant = { λ p. p.len ≤ 128 };
}

impl Piece {
    /// Returns an empty piece.
    pub fn new() -> Piece
        ensures { result ≡ [] }
    {
        Piece {
            bytes: [0; LONGEST],
            len: 0,
        }
    }

    /// Returns the bytes of the piece.
    pub fn bytes(&self) -> &[u8]
        ensures { result.now ≡ self.now }
    {
        &self.bytes[..self.len]
    }

    /// Appends a text. Requires room for it.
    pub fn text(mut self, text: &[u8]) -> Piece
        requires { length self + length text.now ≤ 128 }
        ensures text { result ≡ self ++ text.now }
        ensures len { length result ≡ length self + length text.now }
    {
        self.add(text);
        self
    }

    /// Appends a name. Requires room for 32 bytes.
    pub fn name(self, name: &Name) -> Piece
        requires { length self ≤ 96 }
        ensures text { result ≡ self ++ name.now }
        ensures len { length result ≤ length self + 32 }
    {
        self.text(name.bytes())
    }

    /// Appends a number, in decimal digits. Requires room for ten bytes.
    pub fn number(self, n: u32) -> Piece
        requires { length self ≤ 118 }
        ensures text { result ≡ self ++ decimal n }
        ensures len { length result ≤ length self + 10 }
    {
        self.text(Buffer::new().format(n).as_bytes())
    }

    /// Appends a number, in decimal digits. Requires room for twenty bytes.
    pub fn long_number(self, n: u64) -> Piece
        requires { length self ≤ 108 }
        ensures text { result ≡ self ++ decimal n }
        ensures len { length result ≤ length self + 20 }
    {
        self.text(Buffer::new().format(n).as_bytes())
    }

    /// Appends bytes. Requires room for them.
    fn add(&mut self, bytes: &[u8])
        requires { length self.old + length bytes.now ≤ 128 }
        ensures { self.new ≡ self.old ++ bytes.now }
    {
        let end = self.len + bytes.len();
        self.bytes[self.len..end].copy_from_slice(bytes);
        self.len = end;
    }
}
