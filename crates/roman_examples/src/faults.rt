//! Faults of the shelf, of the input and of the sink.
ghost use Rattle.std.specs.Prelude.{◌≤◌};

use crate::runs::{run, shelf};
use roman_io::{MemSink, MemSource};
use roman_top::Status;
use std::alloc::{AllocError, Global};
use std::process::Abort;
use std::test::Fail;

/// A session over the input, and the same session over the shelf.
const LIVE: &[&str] = &["run", "lamp.json"];

const FILED: &[&str] = &["run", "lamp.json", "session"];

/// The lines of the session, and the replies to all of them.
const LINES: &[u8] = b"do on\nuse l1\nsaw on e\ndo off\nuse l1\nsaw off e\n";

const REPLIES: &[u8] = b"offer l1\nusing l1\nnow on e\noffer l1\nusing l1\nnow off e\n";

/// The kind of a call that fails.
#[derive(Clone, Copy, PartialEq, Eq)]
enum Fault {
    /// A take from the input.
    Take,
    /// A put into the sink.
    Put,
    /// A fetch from the shelf.
    Fetch,
}

impl Fault {
    /// Returns the numbers of the calls of this kind that fail, if call `i` of the kind `fault`
    /// fails.
    fn calls(self, alloc: Global, fault: Fault, i: u64) -> Result<Vec<u64>, AllocError> {
        let mut calls = Vec::new(alloc);
        if self == fault {
            calls.push(i)?;
        }
        Ok(calls)
    }
}

/// The calls from the first number on, up to and without the second. If one of them fails, the
/// session ends with this status, and this many bytes of the replies are written.
type Span = (u64, u64, Status, usize);

/// The takes of an input that gives one byte at a time: one for each byte, and one at the end. The
/// replies to the lines before the fault are written.
static TAKES: [Span; 8] = [
    (0, 6, Status::ReadFault, 0),
    (6, 13, Status::ReadFault, 9),
    (13, 22, Status::ReadFault, 18),
    (22, 29, Status::ReadFault, 27),
    (29, 36, Status::ReadFault, 36),
    (36, 46, Status::ReadFault, 45),
    (46, 47, Status::ReadFault, 55),
    (47, 48, Status::Done, 55),
];

/// The puts, one for each reply. A put that fails appends the first half of its bytes.
static PUTS: [Span; 7] = [
    (0, 1, Status::WriteFault, 4),
    (1, 2, Status::WriteFault, 13),
    (2, 3, Status::WriteFault, 22),
    (3, 4, Status::WriteFault, 31),
    (4, 5, Status::WriteFault, 40),
    (5, 6, Status::WriteFault, 50),
    (6, 7, Status::Done, 55),
];

/// The fetches: one for the document, one at its end, and as many for the session. Nothing is
/// written before the whole session was fetched.
static FETCHES: [Span; 3] = [
    (0, 3, Status::ShelfFault, 0),
    (3, 4, Status::ShelfFault, 55),
    (4, 5, Status::Done, 55),
];

/// Runs these words with an input in pieces of `piece` bytes, in which call `i` of this kind fails.
/// Returns the status, and the sink with what was written.
fn with_fault(
    alloc: Global,
    words: &[&str],
    fault: Fault,
    i: u64,
    piece: usize,
) -> Result<(Status, MemSink), AllocError>
    requires { 1 ≤ piece }
{
    let mut shelf = shelf(alloc, Fault::Fetch.calls(alloc, fault, i)?)?;
    let lines = Vec::from_slice(alloc, LINES)?;
    let mut input = MemSource::new(lines, piece, Fault::Take.calls(alloc, fault, i)?);
    let mut out = MemSink::new(alloc, Fault::Put.calls(alloc, fault, i)?);
    let status = run(alloc, words, &mut shelf, &mut input, &mut out)?;
    Ok((status, out))
}

/// Asserts that the session of these words ends as the spans state, for each call of this kind that
/// fails.
fn each_breaks_off(
    rt: &(impl Abort + AllocGlobal),
    words: &[&str],
    fault: Fault,
    spans: &[Span],
) -> Result<(), Fail> {
    for (first, end, status, len) in spans {
        for i in *first..*end {
            let (ended, out) = with_fault(rt.alloc(), words, fault, i, 1)?;
            assert!(rt; ended == *status, "call {}: status {}", i, ended.number());
            assert!(rt; REPLIES.get(..*len) == Some(out.bytes()), "call {}", i);
        }
    }
    Ok(())
}

#[test]
fn each_call_fails_in_turn(rt: HostRuntime) -> Result<(), Fail> {
    each_breaks_off(&rt, LIVE, Fault::Take, &TAKES)?;
    each_breaks_off(&rt, LIVE, Fault::Put, &PUTS)?;
    each_breaks_off(&rt, FILED, Fault::Fetch, &FETCHES)
}

#[test]
fn whole_lines_are_answered_before_a_fault(rt: HostRuntime) -> Result<(), Fail> {
    let (status, out) = with_fault(rt.alloc(), LIVE, Fault::Take, 2, 8)?;
    assert_eq!(rt; status, Status::ReadFault);
    assert_eq!(rt; out.bytes(), &REPLIES[..18]);
    Ok(())
}

#[test]
fn a_report_breaks_off_at_a_fault(rt: HostRuntime) -> Result<(), Fail> {
    let (_, whole) = with_fault(rt.alloc(), &["synth", "lamp.json"], Fault::Put, 1, 1)?;
    let (status, out) = with_fault(rt.alloc(), &["synth", "lamp.json"], Fault::Put, 0, 1)?;
    assert_eq!(rt; status, Status::WriteFault);
    assert_eq!(rt; out.bytes(), &whole.bytes()[..whole.bytes().len() / 2]);
    Ok(())
}
