//! Reads the lines of a certificate.
ghost use Rattle.std.specs.Prelude.{◌≡◌, ◌<◌, ◌≤◌, [], ◌∷◌, Some, IfSome, length, take};
ghost use Rattle.std.specs.Option.{option_map};
ghost use Rattle.roman_model.specs.Lists.{IsIn};
ghost use Rattle.roman_model.specs.SystemArena.{same_numbers};
ghost use Rattle.roman_model.specs.Certificate.{head_line, count_line, end_line, reason_text, reasons, entry_of};
ghost use Rattle.roman_check.specs.Readings.{entry_with, HasParts, IsEndedAt, ReadsOff};

use crate::numbers::{is_number, number_below, number_to, trim_below};
use roman_model::Reason;

/// The number of bytes that must follow for an entry to be read in one pass. Reading an entry looks at
/// eleven bytes at most for each of its two numbers, so no index needs a test.
pub(crate) const ROOM: usize = 24;

/// Returns whether the line is the first line of a certificate.
pub(crate) fn is_head(line: &[u8]) -> bool
    ensures { result ≡ same_numbers head_line line.now }
{
    line == b"roman-order 1".as_slice()
}

/// Returns whether the line is the second line of a certificate for `pairs` pairs.
pub(crate) fn is_count(line: &[u8], pairs: u32) -> bool
    ensures { result ≡ same_numbers (count_line pairs) line.now }
{
    match line.strip_prefix(b"pairs ".as_slice()) {
        Some(text) => is_number(text, pairs),
        None => false,
    }
}

/// Returns whether the line is the last line of a certificate.
pub(crate) fn is_end(line: &[u8]) -> bool
    ensures { result ≡ same_numbers end_line line.now }
{
    line == b"end".as_slice()
}

/// Returns whether the text is the letter for clause 2.
fn is_final(text: &[u8]) -> bool
    ensures { result ≡ same_numbers (reason_text Reason.Final) text.now }
{
    text == b"f".as_slice()
}

/// Returns the reason with this text, or `None` if no reason of `actions` actions has it.
#[tactic(auto, using(crate::proofs::EntryLemmas::action_text))]
fn reason(text: &[u8], actions: u8) -> Option<Reason>
    ensures { ReadsOff (reasons actions) reason_text text.now result }
{
    if is_final(text) {
        return Some(Reason::Final);
    }
    let action = number_below(text, u32::from(actions))?;
    Some(Reason::Act(action as u8))
}

/// Returns the entry on the line, or `None` if it has no entry for these numbers of pairs and
/// actions.
pub(crate) fn entry(line: &[u8], pairs: u32, actions: u8) -> Option<(u32, Reason)>
    ensures { option_map entry_with result ≡ entry_of pairs actions line.now }
{
    let (value, space) = number_to(line, b' ')?;
    let pair = trim_below(value, &line[..space], pairs)?;
    let reason = reason(&line[space + 1..], actions)?;
    Some((pair, reason))
}

/// Returns the reason with this byte as its text, or `None` if no reason of `actions` actions has
/// it.
#[inline]
fn reason_of(byte: u8, actions: u8) -> Option<Reason>
    ensures { IfSome result (λ reason. IsIn reason (reasons actions) × (reason_text reason ≡ byte ∷ [])) }
{
    if byte == b'f' {
        return Some(Reason::Final);
    }
    let action = byte.wrapping_sub(b'0');
    if action >= actions.min(10) {
        return None;
    }
    Some(Reason::Act(action))
}

/// Returns the reason at the start of the bytes and the length of its text, up to a newline. May return
/// `None` for a valid reason.
#[inline]
fn front_reason(bytes: &[u8], actions: u8) -> Option<(Reason, usize)>
    ensures { IfSome result (λ r. IsIn r.0 (reasons actions) × IsEndedAt bytes.now r.1
        × (reason_text r.0 ≡ take r.1 bytes.now)) }
{
    if bytes.len() > 1 && bytes[1] == b'\n' {
        let reason = reason_of(bytes[0], actions)?;
        return Some((reason, 1));
    }
    let (value, end) = number_to(bytes, b'\n')?;
    let action = trim_below(value, &bytes[..end], u32::from(actions))?;
    Some((Reason::Act(action as u8), end))
}

/// Reads the first line of the bytes in one pass. Returns its pair, its reason, the place where the
/// pair's number ends, and the length of the line. May return `None` for a valid entry.
#[inline]
pub(crate) fn front_entry(
    bytes: &[u8],
    pairs: u32,
    actions: u8,
) -> Option<(u32, Reason, usize, usize)>
    ensures { IfSome result (λ r. (r.0 < pairs) × IsIn r.1 (reasons actions) × (ROOM ≤ length bytes.now)
        × HasParts bytes.now r.0 r.1 r.2 r.3) }
{
    if bytes.len() < ROOM || !matches!(bytes[0], b'1'..=b'9') {
        return None;
    }
    let (value, space) = number_to(bytes, b' ')?;
    let pair = trim_below(value, &bytes[..space], pairs)?;
    let (reason, end) = front_reason(&bytes[space + 1..], actions)?;
    Some((pair, reason, space, space + 1 + end))
}
