//! Splits a stream of bytes into lines.
ghost use Rattle.std.specs.Prelude.{◌≡◌, ◌+◌, ◌<◌, ◌≤◌, ◌++◌, ◌∷◌, [], Some, length, position, nat_lt};
ghost use Rattle.roman_text.specs.declared.lines.TheConstants.{LANES};
ghost use Rattle.std.specs.Bool.{OnTrue, OnFalse};
ghost use Rattle.roman_text.specs.Lines.{IsFirstLine, is_newline, line_head};

use roman_model::MAX_LINE_BYTES;
use std::marker::Model;
use std::simd::prelude::*;

/// The greatest length of a line and one byte more, so that longer lines are recognised.
const KEPT: usize = MAX_LINE_BYTES as usize + 1;

/// The number of bytes that are searched at once for a newline.
const LANES: usize = 16;

/// Holds the current line of a stream of bytes, however the stream is split into pieces. Contracts
/// see the held bytes: the first 257 of the line, which decide its shape.
#[derive(Drop)]
pub struct Splitter {
    bytes: [u8; KEPT],
    len: usize,
}

impl Model for Splitter {
    ghost use Rattle.std.specs.Prelude.{List, ℕ, ◌≤◌, take};

    ghost Value = { List ℕ };

    ghost view = { λ s. take s.len s.bytes };

    ghost invariant = { λ s. s.len ≤ 257 };
}

/// Returns the bytes before the first byte 10 and the bytes after it. Returns `None` exactly when
/// there is no byte 10.
pub fn split_line(bytes: &[u8]) -> Option<(&[u8], &[u8])>
    ensures { IsFirstLine bytes.now result }
{
    let end = newline(bytes)?;
    Some((&bytes[..end], &bytes[end + 1..]))
}

/// Returns the place of the first byte 10, or `None` if there is no byte 10. Searches the first 16
/// bytes at once, since most lines are short.
fn newline(bytes: &[u8]) -> Option<usize>
    ensures { result ≡ position is_newline bytes.now }
{
    if bytes.len() >= LANES {
        let place = newline_near(bytes);
        if place < LANES {
            return Some(place);
        }
    }
    bytes.iter().position(|&byte| byte == b'\n')
}

/// Returns the place of the first byte 10 among the first 16 bytes, or 16 if none of them is 10.
#[inline(always)]
fn newline_near(bytes: &[u8]) -> usize
    requires { LANES ≤ length bytes.now }
    ensures { result < LANES → position is_newline bytes.now ≡ Some result }
{
    let newlines = u8x16::from_slice(bytes)
        .simd_eq(u8x16::splat(b'\n'))
        .to_bitmask();
    if newlines == 0 {
        return LANES;
    }
    newlines.trailing_zeros() as usize
}

impl Splitter {
    /// Returns a splitter that holds no bytes.
    pub fn new() -> Splitter
        ensures empty { result ≡ [] }
    {
        Splitter {
            bytes: [0; KEPT],
            len: 0,
        }
    }

    /// Takes the next byte of the stream. Returns whether it is byte 10, which ends the line. The
    /// splitter then holds the ended line, without that byte. Call [`Splitter::clear`] before the
    /// next byte.
    pub fn push(&mut self, byte: u8) -> bool
        ensures ends { result ≡ is_newline byte }
        ensures whole { OnTrue result (self.new ≡ self.old) }
        ensures goes_on { OnFalse result (self.new ≡ line_head (self.old ++ byte ∷ [])) }
    {
        if byte == b'\n' {
            return true;
        }
        self.hold(&[byte]);
        false
    }

    /// Takes the next bytes of the current line.
    #[tactic(auto, using(crate::proofs::LineLemmas::hold_room))]
    pub fn hold(&mut self, bytes: &[u8])
        ensures { self.new ≡ line_head (self.old ++ bytes.now) }
    {
        let len = bytes.len().min(self.room());
        self.add(&bytes[..len]);
    }

    /// Returns how many more bytes can be held.
    fn room(&self) -> usize
        ensures { result + length self.now ≡ 257 }
    {
        KEPT - self.len
    }

    /// Adds bytes to the held ones. Requires room for them.
    fn add(&mut self, bytes: &[u8])
        requires { length self.old + length bytes.now ≤ 257 }
        ensures { self.new ≡ self.old ++ bytes.now }
    {
        let end = self.len + bytes.len();
        self.bytes[self.len..end].copy_from_slice(bytes);
        self.len = end;
    }

    /// Returns the first 257 bytes of the current line, or all of them if it has fewer.
    pub fn line(&self) -> &[u8]
        ensures line { result.now ≡ self.now }
    {
        &self.bytes[..self.len]
    }

    /// Returns whether any byte of the current line is held.
    pub fn rest(&self) -> bool
        ensures rest { result ≡ nat_lt 0 (length self.now) }
    {
        self.len > 0
    }

    /// Removes all held bytes, as at the beginning of a line.
    pub fn clear(&mut self)
        ensures empty { self.new ≡ [] }
    {
        self.len = 0;
    }
}
