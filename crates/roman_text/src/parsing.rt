//! Parses lines into events. All calls are inlined, so that an event is matched where it is made
//! and isn't copied.
ghost use Rattle.std.specs.Prelude.{◌≡◌, ◌<◌, ◌↔◌, codes, length, if◌then◌else◌};
ghost use Rattle.std.specs.Str.{bytes_eq};
ghost use Rattle.roman_text.specs.Shapes.{Shapes, shape_of, words_of, by_words, alone, with_one, with_two, join};

use crate::errors::LineError;
use crate::events::Event;
use crate::words::{first_word, is_comment, without_return};
use roman_model::MAX_LINE_BYTES;

/// Parses a line, given without its newline, into its event. The words of the event are parts of
/// the line, and aren't looked up.
///
/// Ignores one byte 13 at the end of the line. Words are separated by spaces and tabs. A line
/// without words, and a line whose first word begins with `#`, are [`Event::Nothing`].
///
/// Fails with `TooLong` exactly when the line has more than 256 bytes. Fails with `Form` exactly
/// when it has at most 256 bytes and its words aren't those of an event.
#[inline(always)]
#[tactic(auto, using(crate::proofs::ShapeLemmas::too_long, crate::proofs::ShapeLemmas::shape_of_blank, crate::proofs::ShapeLemmas::shape_of_comment, crate::proofs::ShapeLemmas::shape_of_event_line))]
pub fn parse_line(line: &[u8]) -> Result<Event<'_>, LineError>
    ensures shape { Shapes (shape_of line.now) result }
    ensures too_long { (result ≡ Err LineError.TooLong) ↔ (256 < length line.now) }
{
    if line.len() > MAX_LINE_BYTES as usize {
        return Err(LineError::TooLong);
    }
    let Some((word, rest)) = first_word(without_return(line)) else {
        return Ok(Event::Nothing);
    };
    if is_comment(word) {
        return Ok(Event::Nothing);
    }
    by_words(word, rest)
}

/// Returns the event of a first word and the words of the rest.
#[inline(always)]
fn by_words<'a>(word: &[u8], rest: &'a [u8]) -> Result<Event<'a>, LineError>
    ensures { Shapes (by_words word.now (words_of rest.now)) result }
{
    let Some((a, rest)) = first_word(rest) else {
        return alone(word);
    };
    let Some((b, rest)) = first_word(rest) else {
        return with_one(word, a);
    };
    let Some((c, rest)) = first_word(rest) else {
        return with_two(word, a, b);
    };
    let Some((d, rest)) = first_word(rest) else {
        return join(word, a, b, c, false);
    };
    if first_word(rest).is_some() || !is(d, "loose") {
        return Err(LineError::Form);
    }
    join(word, a, b, c, true)
}

/// Returns whether a word equals the text.
#[inline(always)]
fn is(word: &[u8], text: &str) -> bool
    ensures { result ≡ bytes_eq word.now text.now }
{
    word == text.as_bytes()
}

/// Returns the event of one word.
#[inline(always)]
fn alone<'a>(word: &[u8]) -> Result<Event<'a>, LineError>
    ensures { Shapes (alone word.now) result }
{
    if is(word, "abort") {
        return Ok(Event::Abort);
    }
    if is(word, "report") {
        return Ok(Event::Report);
    }
    if is(word, "explain") {
        return Ok(Event::Explain);
    }
    if is(word, "quit") {
        return Ok(Event::Quit);
    }
    Err(LineError::Form)
}

/// Returns the event of a word and one operand.
#[inline(always)]
fn with_one<'a>(word: &[u8], a: &'a [u8]) -> Result<Event<'a>, LineError>
    ensures { Shapes (with_one word.now a.now) result }
{
    if is(word, "do") {
        return Ok(Event::Ask(a));
    }
    if is(word, "use") {
        return Ok(Event::Hand(a));
    }
    if is(word, "freeze") {
        return Ok(Event::Freeze(a));
    }
    if is(word, "thaw") {
        return Ok(Event::Thaw(a));
    }
    if is(word, "die") {
        return Ok(Event::Die(a));
    }
    if is(word, "jumpenv") {
        return Ok(Event::JumpEnv(a));
    }
    Err(LineError::Form)
}

/// Returns the event of a word and two operands.
#[inline(always)]
fn with_two<'a>(word: &[u8], a: &'a [u8], b: &'a [u8]) -> Result<Event<'a>, LineError>
    ensures { Shapes (with_two word.now a.now b.now) result }
{
    if is(word, "saw") {
        return Ok(Event::Saw { state: a, env: b });
    }
    if is(word, "jump") {
        return Ok(Event::Jump {
            service: a,
            state: b,
        });
    }
    Err(LineError::Form)
}

/// Returns the event of a word and the three operands of `join`.
#[inline(always)]
fn join<'a>(
    word: &[u8],
    service: &'a [u8],
    behaviour: &'a [u8],
    state: &'a [u8],
    loose: bool,
) -> Result<Event<'a>, LineError>
    ensures { Shapes (if bytes_eq word.now (codes "join") then Ok
        (join service.now behaviour.now state.now loose) else Err LineError.Form) result }
{
    if !is(word, "join") {
        return Err(LineError::Form);
    }
    Ok(Event::Join {
        service,
        behaviour,
        state,
        loose,
    })
}
