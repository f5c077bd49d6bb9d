//! Sessions whose lines are read from a stream.
ghost use Rattle.std.specs.Prelude.{◌≡◌, ◌+◌, ◌-◌, ◌⊎◌, ◌∷◌, ◌++◌, [], IfOk, IsErrOf, OnOk};
ghost use Rattle.roman_io.specs.SinkCalls.{FailsWith};
ghost use Rattle.roman_io.specs.Source.{IsAtEnd, GaveAtMost};
ghost use Rattle.roman_model.specs.Lines.{IsLine};
ghost use Rattle.roman_session.specs.Situations.{IsSituation};
ghost use Rattle.roman_session.specs.Answering.{AnswersOn, IsNextOf};
ghost use Rattle.roman_hearing.specs.Known.{AreBehaviours};
ghost use Rattle.roman_hearing.specs.Hearing.{GaveQuit, cursor, stream_state, IsHeardOut, IsCutOff, GoesOn, StopsShort, TellsPrefixOfAll, CausedBy};
ghost use Rattle.roman_hearing.specs.HearingBytes.{CausedBySink, ForSameHead, HearsBytesAfter, HearsPieceAfter, HearsRestAfter, reader_state};

use roman_io::{Failed, Sink, Source, Steps};
use roman_model::{MAX_SESSION_BYTES, PIECE_BYTES};
use roman_session::{Next, Session};
use roman_text::{Page, Splitter, keep_shapes, split_line};
use std::sync::ledger::Ledger;
use thiserror::Error;

/// The reasons for which a session ends early.
#[derive(Clone, Copy, Debug, PartialEq, Eq, Error)]
pub enum HearError {
    /// The source failed, and its count of faults rose. The replies to all lines that were taken
    /// whole were written.
    #[error("the source of the session failed")]
    ReadFault,
    /// The sink failed, and its count of faults rose. A prefix of the replies was written.
    #[error("the sink of the session failed")]
    WriteFault,
    /// The session has more than [`MAX_SESSION_BYTES`] bytes, and no line `quit` ends within that
    /// many. The replies to the lines that end within them were written.
    #[error("the session is too long")]
    TooLong,
}

/// Reads the lines of a session from `source` and writes the reply to each, to the end of the
/// source or to the first line `quit`. Takes at most 4,096 bytes at a time, and writes the replies
/// to the lines that end in them before it takes more. The last line may lack its newline.
///
/// The source may split its bytes in any way, and may have no end: at most [`MAX_SESSION_BYTES`]
/// bytes are read as lines. Allocates no memory. [`HearError`] lists the errors. If the type of the
/// source doesn't expose its bytes, the clauses hold for some bytes that it may have had.
pub fn hear<S: Source, O: Sink, L: Ledger>(
    session: &mut Session,
    source: &mut S,
    out: &mut O,
    steps: &mut Steps<L>,
) -> Result<(), HearError>
    // The replies to the whole session were written. If the session is too long, the replies to
    // the lines that end within the limit were written.
    ensures ok { OnOk result (IsHeardOut (stream_state session.old (S.rest source.old) (O.written out.old))
        (cursor session.new (O.written out.new))) }
    ensures too_long { IsErrOf result HearError.TooLong →
        IsCutOff (stream_state session.old (S.rest source.old) (O.written out.old))
        (cursor session.new (O.written out.new)) }

    // Each error has its cause. After a fault of the source each whole line that was taken is
    // answered. After a fault of the sink a prefix of the replies to the first taken lines was
    // written. It is also a prefix of possible replies to the whole session.
    ensures read_fault { IsErrOf result HearError.ReadFault →
        GoesOn (stream_state session.old (S.rest source.old) (O.written out.old))
        (stream_state session.new (S.rest source.new) (O.written out.new)) }
    ensures write_fault { IsErrOf result HearError.WriteFault →
        StopsShort (stream_state session.old (S.rest source.old) (O.written out.old))
        (stream_state session.new (S.rest source.new) (O.written out.new)) }
    ensures prefix { IsErrOf result HearError.WriteFault → AreBehaviours session.old.parts →
        TellsPrefixOfAll (stream_state session.old (S.rest source.old) (O.written out.old)) (O.written out.new) }
    ensures reads { CausedBy HearError.ReadFault (S.faults source.old) (S.faults source.new) result }
    ensures writes { CausedBy HearError.WriteFault (O.faults out.old) (O.faults out.new) result }

    // At most one piece is taken past the limit of a session. After success the source has no
    // bytes left, or less than a piece was taken past the line `quit`. A source that reads from a
    // shelf keeps that shelf, and the shelf's texts stay the same.
    ensures taken { GaveAtMost (MAX_SESSION_BYTES + PIECE_BYTES) (S.rest source.old) (S.rest source.new) }
    ensures past { OnOk result (IsAtEnd (S.rest source.new)
        ⊎ GaveQuit (PIECE_BYTES - 1) (S.rest source.old) (S.rest source.new)) }
    ensures borrowed { S.borrowed source.new ≡ S.borrowed source.old }
    ensures texts { S.texts source.new ≡ S.texts source.old }
{
    session.names_environment(); // each environment state has a name
    let mut splitter = Splitter::new();
    let mut page = Page::new();
    let mut piece = [0u8; PIECE_BYTES];
    let mut room = MAX_SESSION_BYTES as usize;
    'takes: loop {
        let Ok(count) = source.take(&mut piece) else {
            return Err(HearError::ReadFault);
        };
        if count == 0 {
            return hear_rest(session, &splitter, &mut page, out, steps);
        }
        match hear_piece(
            session,
            &mut splitter,
            room,
            &piece[..count],
            &mut page,
            out,
            steps,
        ) {
            Ok(Next::More) => room -= count,
            Ok(Next::Quit) => return Ok(()),
            Err(error) => return Err(error),
        }
    }
}

/// Reads the first `room` bytes of a piece, and writes the replies to all lines that end in them.
/// Fails with `TooLong` if the piece has more bytes and no line `quit` ends in the first ones.
/// Leaves the page empty.
fn hear_piece<O: Sink, L: Ledger>(
    session: &mut Session,
    splitter: &mut Splitter,
    room: usize,
    piece: &[u8],
    page: &mut Page,
    out: &mut O,
    steps: &mut Steps<L>,
) -> Result<Next, HearError>
    ensures hears { HearsPieceAfter room (reader_state session.old (O.written out.old) page.old splitter.old)
        piece.now (reader_state session.new (O.written out.new) [] splitter.new) result }
    ensures empty { IfOk result (λ _. page.new ≡ []) }
    ensures cause { CausedBySink O.Sink out.old out.new result }
{
    let due = piece.len().min(room);
    let Ok(next) = hear_bytes(session, splitter, &piece[..due], page, out, steps) else {
        return Err(HearError::WriteFault);
    };
    session.known(); // the situation is well formed
    if let Err(_failed) = page.flush(out) {
        return Err(HearError::WriteFault);
    }
    match next {
        Next::More if due < piece.len() => Err(HearError::TooLong),
        _ => Ok(next),
    }
}

/// Reads bytes, to their end or to the end of a line `quit`, and pushes the replies on the page.
fn hear_bytes<O: Sink, L: Ledger>(
    session: &mut Session,
    splitter: &mut Splitter,
    bytes: &[u8],
    page: &mut Page,
    out: &mut O,
    steps: &mut Steps<L>,
) -> Result<Next, Failed>
    ensures hears { HearsBytesAfter (reader_state session.old (O.written out.old) page.old splitter.old)
        bytes.now (reader_state session.new (O.written out.new) page.new splitter.new) result }
    ensures cause { FailsWith O.Sink out.old out.new result }
{
    let mut rest = bytes;
    'lines: while let Some((part, after)) = split_line(rest) {
        if let Next::Quit = hear_ended(session, splitter, part, page, out, steps)? {
            return Ok(Next::Quit);
        }
        rest = after;
    }
    splitter.hold(rest);
    Ok(Next::More)
}

/// Reads the last bytes of a line and its newline. Pushes the reply to the line on the page. Copies
/// the bytes only if earlier bytes of the line are held.
fn hear_ended<O: Sink, L: Ledger>(
    session: &mut Session,
    splitter: &mut Splitter,
    part: &[u8],
    page: &mut Page,
    out: &mut O,
    steps: &mut Steps<L>,
) -> Result<Next, Failed>
    requires { IsLine part.now }
    ensures hears { HearsBytesAfter (reader_state session.old (O.written out.old) page.old splitter.old)
        (part.now ++ 10 ∷ []) (reader_state session.new (O.written out.new) page.new splitter.new) result }
    ensures cause { FailsWith O.Sink out.old out.new result }
{
    if !splitter.rest() {
        return hear_line(session, part, page, out, steps);
    }
    splitter.hold(part);
    let heard = hear_line(session, splitter.line(), page, out, steps);
    splitter.clear();
    heard
}

/// Answers a last line that has no newline, and writes the reply. Does nothing if no bytes are
/// held. Requires an empty page.
fn hear_rest<O: Sink, L: Ledger>(
    session: &mut Session,
    splitter: &Splitter,
    page: &mut Page,
    out: &mut O,
    steps: &mut Steps<L>,
) -> Result<(), HearError>
    requires { page.old ≡ [] }
    ensures hears { HearsRestAfter (reader_state session.old (O.written out.old) page.old splitter.now)
        (cursor session.new (O.written out.new)) result }
    ensures cause { CausedBySink O.Sink out.old out.new result }
{
    if !splitter.rest() {
        return Ok(());
    }
    let Ok(_) = hear_line(session, splitter.line(), page, out, steps) else {
        return Err(HearError::WriteFault);
    };
    if let Err(_failed) = page.flush(out) {
        return Err(HearError::WriteFault);
    }
    Ok(())
}

/// Pushes the reply to a line on the page. A line that is too long to parse may be truncated.
fn hear_line<O: Sink, L: Ledger>(
    session: &mut Session,
    line: &[u8],
    page: &mut Page,
    out: &mut O,
    steps: &mut Steps<L>,
) -> Result<Next, Failed>
    ensures step { ForSameHead line.now (λ whole.
        AnswersOn O.Sink session.old whole session.new out.old out.new page.old page.new result) }
    ensures next { ForSameHead line.now (λ whole. IsNextOf whole result) }
    ensures known { IsSituation session.new }
    ensures cause { FailsWith O.Sink out.old out.new result }
{
    keep_shapes();
    let answered = session.answer_on(line, page, out, steps);
    session.known(); // the situation is well formed
    answered
}
