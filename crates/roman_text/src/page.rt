//! Gathers output in a buffer of fixed size.
ghost use Rattle.std.specs.Prelude.{◌≡◌, ◌+◌, ◌<◌, ◌≤◌, ◌∷◌, ◌++◌, [], length, take, decimal, OnOk};
ghost use Rattle.roman_io.specs.SinkCalls.{WritesTo, FailsWith};
ghost use Rattle.roman_model.specs.declared.limits.TheConstants.{MAX_NAME_BYTES, PIECE_BYTES};
ghost use Rattle.roman_text.specs.declared.piece.TheConstants.{LONGEST};
ghost use Rattle.roman_text.specs.Pages.{Gathers, Pushes};
ghost use Rattle.roman_text.specs.Report.{line_text};

mod replies;

use crate::piece::LONGEST;
use crate::report::{ReportLine, report_piece};
use itoa::{Buffer, write_digits};
use roman_io::{Failed, Sink};
use roman_model::{MAX_NAME_BYTES, PIECE_BYTES};
use roman_read::Name;
use std::marker::Model;
use std::simd::prelude::*;

/// The greatest number of decimal digits of a `u32`.
const DIGITS: usize = 10;

/// The greatest number of bytes of a name.
const NAME: usize = MAX_NAME_BYTES as usize;

/// The length in bytes of the array that [`Page::push_short`] takes.
pub const SHORT: usize = 16;

/// A buffer of 4,096 bytes before a sink, which writes many short texts as one piece. Contracts see
/// the held bytes. The sink has the bytes before them. A call fails only when the sink's count of
/// faults rose.
#[derive(Drop)]
pub struct Page {
    bytes: [u8; PIECE_BYTES],
    len: usize,
}

impl Model for Page {
    ghost use Rattle.std.specs.Prelude.{List, ℕ, ◌≤◌, take};
    ghost use Rattle.roman_model.specs.declared.limits.TheConstants.{PIECE_BYTES};

    ghost Value = { List ℕ };

    ghost view = { λ p. take p.len p.bytes };

    ghost invariant = { λ p. p.len ≤ PIECE_BYTES };
}

impl Page {
    /// Returns an empty page.
    pub fn new() -> Page
        ensures empty { result ≡ [] }
    {
        Page {
            bytes: [0; PIECE_BYTES],
            len: 0,
        }
    }

    /// Appends bytes to the held bytes. Writes the held bytes first if there is no room for the new
    /// ones. If the call fails, the page is empty, and a prefix of all these bytes was written.
    #[inline]
    #[tactic(auto, using(crate::proofs::PageLemmas::in_pieces))]
    pub fn push<O: Sink>(&mut self, bytes: &[u8], out: &mut O) -> Result<(), Failed>
        ensures gathers { Pushes O.Sink out.old out.new self.old self.new bytes.now result }
        ensures cause { FailsWith O.Sink out.old out.new result }
    {
        if bytes.len() <= self.room() {
            self.add(bytes);
            return Ok(());
        }
        self.flush(out)?;
        if bytes.len() > PIECE_BYTES {
            return out.put(bytes);
        }
        self.add(bytes);
        Ok(())
    }

    /// Writes the held bytes, as one piece, and leaves the page empty. Writes nothing if no bytes
    /// are held. If the sink fails, the page is empty, and a prefix of the piece was written.
    pub fn flush<O: Sink>(&mut self, out: &mut O) -> Result<(), Failed>
        ensures puts { WritesTo O.Sink out.old out.new self.old result }
        ensures empty { self.new ≡ [] }
        ensures cause { FailsWith O.Sink out.old out.new result }
    {
        if self.len == 0 {
            return Ok(());
        }
        let result = out.put(&self.bytes[..self.len]);
        self.len = 0;
        result
    }

    /// Appends a number, in decimal digits, and bytes after it, as [`Page::push`] appends bytes.
    #[inline(always)]
    #[tactic(auto, using(crate::proofs::PageLemmas::in_pieces))]
    pub fn push_number_then<O: Sink>(
        &mut self,
        n: u32,
        behind: &[u8],
        out: &mut O,
    ) -> Result<(), Failed>
        ensures gathers { Pushes O.Sink out.old out.new self.old self.new
            (decimal n ++ behind.now) result }
        ensures cause { FailsWith O.Sink out.old out.new result }
    {
        if self.room() < DIGITS + behind.len() {
            self.push(Buffer::new().format(n).as_bytes(), out)?;
            return self.push(behind, out);
        }
        self.add_number(n);
        self.add(behind);
        Ok(())
    }

    /// Appends the first `len` bytes of an array, as [`Page::push`] appends bytes. Copies the whole
    /// array if there is room for it.
    #[inline(always)]
    pub fn push_short<O: Sink>(
        &mut self,
        bytes: &[u8; SHORT],
        len: usize,
        out: &mut O,
    ) -> Result<(), Failed>
        requires { len ≤ SHORT }
        ensures gathers { Pushes O.Sink out.old out.new self.old self.new (take len bytes.now) result }
        ensures cause { FailsWith O.Sink out.old out.new result }
    {
        if self.room() < SHORT {
            return self.push(&bytes[..len], out);
        }
        self.add_short(bytes, len);
        Ok(())
    }

    /// Appends a byte and a name after it, as [`Page::push`] appends bytes. Writes the held bytes
    /// first if fewer than 128 bytes of the page are free.
    #[inline]
    #[tactic(auto, using(crate::proofs::PageLemmas::in_pieces))]
    pub fn push_name<O: Sink>(&mut self, before: u8, name: &Name, out: &mut O) -> Result<(), Failed>
        ensures gathers { Pushes O.Sink out.old out.new self.old self.new
            (before ∷ name.now) result }
        ensures cause { FailsWith O.Sink out.old out.new result }
    {
        self.make_room(out)?;
        self.add_byte(before);
        self.add_bare(name);
        Ok(())
    }

    /// Appends a report line, as [`Page::push`] appends bytes.
    pub fn push_report_line<O: Sink>(
        &mut self,
        line: &ReportLine,
        out: &mut O,
    ) -> Result<(), Failed>
        ensures gathers { Pushes O.Sink out.old out.new self.old self.new (line_text line.now) result }
        ensures cause { FailsWith O.Sink out.old out.new result }
    {
        self.push(report_piece(line).bytes(), out)
    }

    /// Writes the held bytes if there is no room after them for the longest reply.
    fn make_room<O: Sink>(&mut self, out: &mut O) -> Result<(), Failed>
        ensures gathers { Gathers (O.written out.old) (O.written out.new) self.new self.old result }
        ensures room { OnOk result (length self.new + LONGEST ≤ PIECE_BYTES) }
        ensures cause { FailsWith O.Sink out.old out.new result }
    {
        if self.room() >= LONGEST {
            return Ok(());
        }
        self.flush(out)
    }

    /// Returns the number of free bytes of the page.
    fn room(&self) -> usize
        ensures { result + length self.now ≡ PIECE_BYTES }
    {
        PIECE_BYTES - self.len
    }

    /// Adds bytes. Requires room for them.
    fn add(&mut self, bytes: &[u8])
        requires { length self.old + length bytes.now ≤ PIECE_BYTES }
        ensures { self.new ≡ self.old ++ bytes.now }
    {
        let end = self.len + bytes.len();
        self.bytes[self.len..end].copy_from_slice(bytes);
        self.len = end;
    }

    /// Adds the first `len` bytes of an array. Requires room for the whole array.
    #[inline(always)]
    fn add_short(&mut self, bytes: &[u8; SHORT], len: usize)
        requires room { length self.old + SHORT ≤ PIECE_BYTES }
        requires len { len ≤ SHORT }
        ensures { self.new ≡ self.old ++ take len bytes.now }
    {
        let end = self.len + SHORT;
        self.bytes[self.len..end].copy_from_slice(bytes);
        self.len += len;
    }

    /// Adds a byte. Requires room for it.
    fn add_byte(&mut self, byte: u8)
        requires { length self.old < PIECE_BYTES }
        ensures { self.new ≡ self.old ++ byte ∷ [] }
    {
        self.bytes[self.len] = byte;
        self.len += 1;
    }

    /// Adds a name. Requires room for the longest name, since it copies as many bytes.
    fn add_bare(&mut self, name: &Name)
        requires { length self.old + MAX_NAME_BYTES ≤ PIECE_BYTES }
        ensures text { self.new ≡ self.old ++ name.now }
        ensures len { length self.new ≤ length self.old + MAX_NAME_BYTES }
    {
        let end = self.len + NAME;
        copy_name(name.padded(), &mut self.bytes[self.len..end]);
        self.len += name.bytes().len();
    }

    /// Adds a name, with bytes before it and after it. Requires room for these bytes and the
    /// longest name.
    #[inline]
    fn add_name(&mut self, before: &[u8], name: &Name, behind: &[u8])
        requires { length self.old + length before.now + length behind.now + MAX_NAME_BYTES ≤ PIECE_BYTES }
        ensures text { self.new ≡ self.old ++ (before.now ++ (name.now ++ behind.now)) }
        ensures len { length self.new ≤ length self.old + length before.now + length behind.now + MAX_NAME_BYTES }
    {
        self.add(before);
        self.add_bare(name);
        self.add(behind);
    }

    /// Adds a number, in decimal digits. Requires room for ten bytes.
    fn add_number(&mut self, n: u32)
        requires { length self.old + DIGITS ≤ PIECE_BYTES }
        ensures text { self.new ≡ self.old ++ decimal n }
        ensures len { length self.new ≤ length self.old + DIGITS }
    {
        let end = self.len + digits(n);
        write_digits(u64::from(n), &mut self.bytes, end);
        self.len = end;
    }
}

/// Copies a padded name as one vector, which takes fewer steps than a copy of a slice.
#[inline(always)]
fn copy_name(name: &[u8; NAME], room: &mut [u8])
    requires { length room.old ≡ NAME }
    ensures { room.new ≡ name.now }
{
    u8x32::from_slice(name).copy_to_slice(room);
}

/// Returns the number of decimal digits of a number.
#[tactic(auto, using(crate::proofs::PageLemmas::digit_counts))]
fn digits(n: u32) -> usize
    ensures count { result ≡ length (decimal n) }
    ensures few { result ≤ DIGITS }
{
    match n {
        0..=9 => 1,
        10..=99 => 2,
        100..=999 => 3,
        1_000..=9_999 => 4,
        10_000..=99_999 => 5,
        100_000..=999_999 => 6,
        1_000_000..=9_999_999 => 7,
        10_000_000..=99_999_999 => 8,
        100_000_000..=999_999_999 => 9,
        _ => 10,
    }
}
