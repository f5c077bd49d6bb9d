//! The line that reports an exceeded limit.
ghost use Rattle.roman_opening.specs.Opening.{limit_line};
ghost use Rattle.roman_io.specs.SinkCalls.{WritesTo, FailsWith};

use roman_io::{Failed, Sink};
use roman_text::Piece;

/// Writes the line `limit N`.
pub fn put_limit<O: Sink>(limit: u32, out: &mut O) -> Result<(), Failed>
    ensures puts { WritesTo O.Sink out.old out.new (limit_line limit) result }
    ensures cause { FailsWith O.Sink out.old out.new result }
{
    let line = Piece::new().text(b"limit ").number(limit).text(b"\n");
    out.put(line.bytes())
}
