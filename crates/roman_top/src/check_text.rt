//! The lines that report the verdict on a certificate.
ghost use Rattle.std.specs.Prelude.{◌≡◌, ◌≤◌, length};
ghost use Rattle.roman_io.specs.SinkCalls.{WritesTo, FailsWith};
ghost use Rattle.roman_text.specs.Report.{line_text};
ghost use Rattle.roman_text.specs.declared.report.ReportLine.TheVariants.{Answer};
ghost use Rattle.roman_check.specs.Verdicts.{fault_of};
ghost use Rattle.roman_top.specs.CheckText.{greatest_text, rejected_text, why_text};

use roman_check::Why;
use roman_io::{Failed, Sink};
use roman_text::Piece;

/// Writes the line `greatest R`, and the line that states whether the start pair is related.
pub(crate) fn put_greatest<O: Sink>(related: u32, start: bool, out: &mut O) -> Result<(), Failed>
    ensures puts { WritesTo O.Sink out.old out.new (greatest_text related start) result }
    ensures cause { FailsWith O.Sink out.old out.new result }
{
    let line = Piece::new().text(b"greatest ").number(related).text(b"\n");
    let text = line.text(answer_line(start));
    out.put(text.bytes())
}

/// Returns the line that states whether a pair is related.
pub(crate) fn answer_line(related: bool) -> &'static [u8]
    ensures line { result.now ≡ line_text (Answer related) }
    ensures short { length result.now ≤ 32 }
{
    if related {
        b"answer composition\n"
    } else {
        b"answer none\n"
    }
}

/// Writes the line `rejected LINE WHY`.
pub(crate) fn put_rejected<O: Sink>(line: u32, why: Why, out: &mut O) -> Result<(), Failed>
    ensures puts { WritesTo O.Sink out.old out.new (rejected_text line (fault_of why)) result }
    ensures cause { FailsWith O.Sink out.old out.new result }
{
    let text = Piece::new().text(b"rejected ").number(line).text(b" ");
    let line = text.text(why_piece(why).bytes()).text(b"\n");
    out.put(line.bytes())
}

/// Returns the word of a fault, followed by the number of the pair if a pair is missing.
fn why_piece(why: Why) -> Piece
    ensures text { result ≡ why_text (fault_of why) }
    ensures short { length result ≤ 32 }
{
    let text = Piece::new();
    match why {
        Why::Form => text.text(b"form"),
        Why::Repeated => text.text(b"repeated"),
        Why::Unjustified => text.text(b"unjustified"),
        Why::Unlisted(pair) => text.text(b"unlisted ").number(pair),
    }
}
