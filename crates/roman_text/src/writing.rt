//! Writes single lines to a sink.
ghost use Rattle.roman_text.specs.Replies.{reply_text};
ghost use Rattle.roman_text.specs.Report.{line_text};
ghost use Rattle.roman_io.specs.SinkCalls.{WritesTo, FailsWith};

use crate::page::Page;
use crate::replies::Reply;
use crate::report::{ReportLine, report_piece};
use roman_io::{Failed, Sink};

/// Writes a reply, as one piece. Fails only when the sink's count of faults rose; a prefix of the
/// reply was then written.
#[tactic(auto, using(crate::proofs::PageLemmas::in_pieces))]
pub fn put_reply<O: Sink>(out: &mut O, reply: &Reply) -> Result<(), Failed>
    ensures puts { WritesTo O.Sink out.old out.new (reply_text reply.now) result }
    ensures cause { FailsWith O.Sink out.old out.new result }
{
    let mut page = Page::new();
    page.push_reply(reply, out)?;
    page.flush(out)
}

/// Writes a report line, as one piece. Fails only when the sink's count of faults rose; a prefix of
/// the line was then written.
pub fn put_report_line<O: Sink>(out: &mut O, line: &ReportLine) -> Result<(), Failed>
    ensures puts { WritesTo O.Sink out.old out.new (line_text line.now) result }
    ensures cause { FailsWith O.Sink out.old out.new result }
{
    out.put(report_piece(line).bytes())
}
