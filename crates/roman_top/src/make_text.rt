//! The script of a made system, and the summary of its session.
ghost use Rattle.std.specs.Prelude.{◌≡◌, ◌-◌, ◌≤◌, ◌++◌, length, take, drop};
ghost use Rattle.roman_io.specs.SinkCalls.{WritesTo, FailsWith};
ghost use Rattle.roman_make.specs.Script.{script_lines};
ghost use Rattle.roman_top.specs.MakeText.{made_line, standing, stages, Passes};
ghost use Rattle.roman_top.specs.MakeStages.{HasComeTo, line_of_stage, lines_of};
ghost use Rattle.roman_text.specs.Pages.{Pushes};

use crate::make_stage::MakeStage;
use roman_io::{Failed, Sink, Steps, Waste};
use roman_make::script;
use roman_session::Session;
use roman_text::{Page, Piece};
use std::sync::ledger::Ledger;

/// Returns the figures of the session, under the word of a stage.
fn stand(word: &'static [u8], session: &Session) -> MakeStage
    requires { length word.now ≤ 16 }
    ensures line { line_of_stage result ≡ standing word.now session.now }
    ensures word { result.word.now ≡ word.now }
{
    MakeStage {
        word,
        pairs: session.pairs(),
        related: session.related(),
        composes: session.composes(),
    }
}

/// Answers the lines `from..to` of the script, and drops the replies.
fn play<L: Ledger>(session: &mut Session, from: u8, to: u8, steps: &mut Steps<L>)
    requires order { from ≤ to }
    requires end { to ≤ 13 }
    ensures { HasComeTo session.old (take (to - from) (drop from script_lines)) session.new }
{
    let mut waste = Waste::new();
    for i in from..to {
        let Some(line) = script(i) else {
            unreachable!()
        };
        let _ = session.answer(line, &mut waste, steps);
    }
}

/// Answers the whole script. Returns the figures of the session at the start, after each change of
/// the services, and at the end.
pub(crate) fn run_script<L: Ledger>(session: &mut Session, steps: &mut Steps<L>) -> [MakeStage; 6]
    ensures { Passes session.old stages (lines_of result) }
{
    let start = stand(b"start", session);
    play(session, 0, 1, steps);
    let freeze = stand(b"freeze", session);
    play(session, 1, 2, steps);
    let thaw = stand(b"thaw", session);
    play(session, 2, 3, steps);
    let die = stand(b"die", session);
    play(session, 3, 4, steps);
    let join = stand(b"join", session);
    play(session, 4, 13, steps);
    let round = stand(b"round", session);
    [start, freeze, thaw, die, join, round]
}

/// Writes the summary: `made N`, the line of each stage, and `end`.
pub(crate) fn put_summary<O: Sink>(n: u8, stages: &[MakeStage], out: &mut O) -> Result<(), Failed>
    ensures puts { WritesTo O.Sink out.old out.new (made_line n ++ lines_of stages.now) result }
    ensures cause { FailsWith O.Sink out.old out.new result }
{
    let mut page = Page::new();
    page.push(made_piece(n).bytes(), out)?;
    push_stages(stages, &mut page, out)?;
    page.flush(out)
}

/// Returns the first line of the summary.
fn made_piece(n: u8) -> Piece
    ensures { result ≡ made_line n }
{
    Piece::new().text(b"made ").number(u32::from(n)).text(b"\n")
}

/// Pushes the lines of the stages, and the last line of the summary.
fn push_stages<O: Sink>(stages: &[MakeStage], page: &mut Page, out: &mut O) -> Result<(), Failed>
    ensures gathers { Pushes O.Sink out.old out.new page.old page.new (lines_of stages.now) result }
    ensures cause { FailsWith O.Sink out.old out.new result }
{
    for stage in stages {
        page.push(stage_piece(stage).bytes(), out)?;
    }
    page.push(b"end\n", out)
}

fn stage_piece(stage: &MakeStage) -> Piece
    ensures { result ≡ line_of_stage stage.now }
{
    let pairs = Piece::new()
        .text(stage.word)
        .text(b" pairs ")
        .number(stage.pairs);
    let related = pairs.text(b" related ").number(stage.related);
    if stage.composes {
        related.text(b" composition\n")
    } else {
        related.text(b" none\n")
    }
}
