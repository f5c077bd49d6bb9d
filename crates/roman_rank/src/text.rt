//! Writes depths as a text.
ghost use Rattle.std.specs.Prelude.{◌≡◌, ◌^◌, ◌<◌, ◌++◌, length};
ghost use Rattle.roman_io.specs.Faults.{HasCause};
ghost use Rattle.roman_text.specs.Pages.{Gathers};
ghost use Rattle.roman_model.specs.System.{Sys};
ghost use Rattle.roman_model.specs.Numbers.{sizes_of, pair_at};
ghost use Rattle.roman_rank.specs.Ranking.{AreDepths};
ghost use Rattle.roman_rank.specs.DepthText.{head_lines, level_line, level_lines, last_lines, PutsDepths};

use crate::ranks::Ranks;
use roman_io::{Failed, Sink};
use roman_text::{Page, Piece};

/// Writes the number of pairs, the number of related pairs, the number of pairs of each depth, and the
/// depth of the start pair `p`. Fails only when the sink's count of faults rose; a prefix of the text
/// was then written.
pub fn write_depths<O: Sink>(ranks: &Ranks, p: u32, out: &mut O) -> Result<(), Failed>
    requires { p < length ranks.now }
    ensures tells { (s : Sys) → AreDepths s ranks.now →
        PutsDepths s (pair_at (sizes_of s) p) (O.written out.old) (O.written out.new) result }
    ensures cause { HasCause (O.faults out.old) (O.faults out.new) result }
{
    let head = head_piece(ranks.pairs(), ranks.related());
    let levels = ranks.levels();
    let last = last_piece(ranks.depth(p));
    let mut page = Page::new();
    page.push(head.bytes(), out)?;
    push_levels(levels, &mut page, out)?;
    page.push(last.bytes(), out)?;
    page.flush(out)
}

/// Returns the first two lines of the text.
fn head_piece(pairs: u32, related: u32) -> Piece
    ensures { result ≡ head_lines pairs related }
{
    let text = Piece::new().text(b"pairs ").number(pairs);
    text.text(b"\nrelated ").number(related).text(b"\n")
}

/// Pushes a line for each count on the page.
fn push_levels<O: Sink>(counts: &[u32], page: &mut Page, out: &mut O) -> Result<(), Failed>
    requires { length counts.now < 2 ^ 32 }
    ensures gathers { Gathers (O.written out.old) (O.written out.new) page.new
        (page.old ++ level_lines 0 counts.now) result }
    ensures cause { HasCause (O.faults out.old) (O.faults out.new) result }
{
    for (n, count) in counts.iter().enumerate() {
        page.push(level_piece(n as u32, *count).bytes(), out)?;
    }
    Ok(())
}

/// Returns the line of the depth `n`.
fn level_piece(n: u32, count: u32) -> Piece
    ensures { result ≡ level_line n count }
{
    let text = Piece::new().text(b"depth ").number(n);
    text.text(b": ").number(count).text(b"\n")
}

/// Returns the line of the start pair, and the last line of the text.
fn last_piece(depth: Option<u32>) -> Piece
    ensures { result ≡ last_lines depth }
{
    let text = Piece::new();
    match depth {
        None => text.text(b"start related\nend\n"),
        Some(n) => text.text(b"start depth ").number(n).text(b"\nend\n"),
    }
}
