//! Reads lines of a certificate that differ only in the last two digits of the pair.
ghost use Rattle.std.specs.Prelude.{◌≡◌, ℕ, ◌+◌, ◌*◌, ◌<◌, ◌≤◌, length, IfSome, IsTrue, slice_index};
ghost use Rattle.roman_model.specs.Lists.{IsIn};
ghost use Rattle.roman_model.specs.Certificate.{reasons};
ghost use Rattle.roman_check.specs.Readings.{BeginsWith, HasParts};
ghost use Rattle.roman_check.specs.Lines.{HasForm, HasReasonOf, IsPattern};

use crate::entries::{ROOM, front_entry};
use crate::numbers::digit;
use roman_model::Reason;

/// The greatest length of a pattern's line in bytes, with its newline.
const WIDTH: usize = 16;

/// How the line of a pattern is divided.
#[derive(Clone, Copy)]
pub(crate) struct Shape {
    // the length of the line, without its newline
    pub(crate) len: usize,
    // the place of the last two digits of the pair
    pub(crate) place: usize,
    // the pair, with zeros for these two digits
    pub(crate) base: u64,
    pub(crate) reason: Reason,
}

/// The line of an entry, with its newline. Other last two digits of the pair make it the line of
/// another entry with the same reason.
///
/// Neighbouring lines of a certificate mostly differ only in these two digits. Two comparisons of
/// four or eight bytes each then replace reading the rest of the line.
#[derive(Drop)]
pub(crate) struct Pattern {
    pub(crate) text: [u8; WIDTH],
    pub(crate) shape: Shape,
}

/// Returns whether the first four bytes are equal.
#[inline(always)]
fn halves_alike(a: &[u8], b: &[u8]) -> bool
    requires left { 4 ≤ length a.now }
    requires right { 4 ≤ length b.now }
    ensures { IsTrue result → (k : ℕ) → k < 4 → slice_index a.now k ≡ slice_index b.now k }
{
    u32::from_le_bytes([a[0], a[1], a[2], a[3]]) == u32::from_le_bytes([b[0], b[1], b[2], b[3]])
}

/// Returns whether the first eight bytes are equal.
#[inline(always)]
fn words_alike(a: &[u8], b: &[u8]) -> bool
    requires left { 8 ≤ length a.now }
    requires right { 8 ≤ length b.now }
    ensures { IsTrue result → (k : ℕ) → k < 8 → slice_index a.now k ≡ slice_index b.now k }
{
    u64::from_le_bytes([a[0], a[1], a[2], a[3], a[4], a[5], a[6], a[7]])
        == u64::from_le_bytes([b[0], b[1], b[2], b[3], b[4], b[5], b[6], b[7]])
}

impl Shape {
    /// Sets the two bytes that stand for the last two digits of the pair in a text of this shape.
    #[inline(always)]
    #[tactic(auto, using(crate::proofs::PatternLemmas::pattern_same))]
    fn put_digits(self, text: &mut [u8; WIDTH], tens: u8, ones: u8)
        requires { IsPattern text.old self }
        ensures pattern { IsPattern text.new self }
        ensures tens { slice_index text.new self.place ≡ tens }
        ensures ones { slice_index text.new (self.place + 1) ≡ ones }
    {
        text[self.place] = tens;
        text[self.place + 1] = ones;
    }

    /// Returns whether the bytes begin with the line.
    #[inline(always)]
    fn begins(self, text: &[u8; WIDTH], bytes: &[u8]) -> bool
        requires long { 3 ≤ self.len }
        requires short { self.len < 16 }
        requires room { 16 ≤ length bytes.now }
        ensures { IsTrue result → (k : ℕ) → k ≤ self.len → slice_index text.now k ≡ slice_index bytes.now k }
    {
        if self.len < 7 {
            let last = self.len - 3;
            return halves_alike(text, bytes) && halves_alike(&text[last..], &bytes[last..]);
        }
        let last = self.len - 7;
        words_alike(text, bytes) && words_alike(&text[last..], &bytes[last..])
    }

    /// Returns the pair of the first line of the bytes if that line differs from the text at most
    /// in the last two digits of the pair. Sets the digits of the text to those of the bytes.
    #[inline(always)]
    pub(crate) fn fit(self, text: &mut [u8; WIDTH], bytes: &[u8]) -> Option<u64>
        requires pattern { IsPattern text.old self }
        requires room { 16 ≤ length bytes.now }
        ensures pattern { IsPattern text.new self }
        ensures pair { IfSome result (λ pair. HasParts bytes.now pair self.reason (self.place + 2) self.len) }
    {
        let place = self.place;
        let tens = digit(bytes[place]);
        let ones = digit(bytes[place + 1]);
        if tens > 9 || ones > 9 {
            return None;
        }
        self.put_digits(text, bytes[place], bytes[place + 1]);
        if !self.begins(text, bytes) {
            return None;
        }
        Some(self.base + tens * 10 + ones)
    }
}

/// The pair and the reason of an entry, and the length of its line.
pub(crate) type EntryLine = (u32, Reason, usize);

impl Pattern {
    /// Returns the pattern with the line of pair 10,000 and clause 2.
    #[tactic(auto, using(crate::proofs::PatternLemmas::first_number))]
    pub(crate) fn new() -> Pattern
        ensures pattern { HasForm result }
        ensures reason { result.shape.reason ≡ Reason.Final }
    {
        Pattern {
            text: [
                b'1', b'0', b'0', b'0', b'0', b' ', b'f', b'\n', 0, 0, 0, 0, 0, 0, 0, 0,
            ],
            shape: Shape {
                len: 7,
                place: 3,
                base: 10_000,
                reason: Reason::Final,
            },
        }
    }

    /// Makes the first line of the bytes the pattern. Changes nothing if the pair has fewer than
    /// three digits or the line is too long. Requires that the line is the entry of the pair and
    /// the reason, has `len` bytes, and has its space at place `space`.
    #[tactic(auto, using(crate::proofs::PatternLemmas::large_number))]
    fn learn(&mut self, bytes: &[u8], pair: u32, reason: Reason, space: usize, len: usize)
        requires pattern { HasForm self.old }
        requires room { 16 ≤ length bytes.now }
        requires parts { HasParts bytes.now pair reason space len }
        ensures pattern { HasForm self.new }
        ensures reason { (actions : ℕ) → HasReasonOf actions self.old →
            IsIn reason (reasons actions) → HasReasonOf actions self.new }
    {
        if pair < 100 || len >= WIDTH {
            return;
        }
        self.text.copy_from_slice(&bytes[..WIDTH]);
        self.shape = Shape {
            len,
            place: space - 2,
            base: u64::from(pair - pair % 100),
            reason,
        };
    }

    /// Reads the first line of the bytes without the pattern. Returns its entry and its length, and
    /// makes it the pattern if it fits. May return `None` for a valid entry.
    #[inline(never)]
    fn read_anew(&mut self, bytes: &[u8], pairs: u32, actions: u8) -> Option<EntryLine>
        requires pattern { HasForm self.old }
        requires reason { HasReasonOf actions self.old }
        ensures pattern { HasForm self.new }
        ensures reason { HasReasonOf actions self.new }
        ensures read { IfSome result (BeginsWith pairs actions bytes.now) }
    {
        let (pair, reason, space, len) = front_entry(bytes, pairs, actions)?;
        self.learn(bytes, pair, reason, space, len);
        Some((pair, reason, len))
    }

    /// Reads the first line of the bytes. Returns its entry and its length, and makes it the
    /// pattern if it fits. May return `None` for a valid entry.
    #[inline(always)]
    pub(crate) fn read(&mut self, bytes: &[u8], pairs: u32, actions: u8) -> Option<EntryLine>
        requires pattern { HasForm self.old }
        requires reason { HasReasonOf actions self.old }
        ensures pattern { HasForm self.new }
        ensures reason { HasReasonOf actions self.new }
        ensures read { IfSome result (BeginsWith pairs actions bytes.now) }
    {
        if bytes.len() < ROOM {
            return None;
        }
        let shape = self.shape;
        if let Some(pair) = shape.fit(&mut self.text, bytes) {
            if pair < u64::from(pairs) {
                return Some((pair as u32, shape.reason, shape.len));
            }
        }
        self.read_anew(bytes, pairs, actions)
    }
}
