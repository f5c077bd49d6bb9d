//! The line that reports a refusal.
ghost use Rattle.std.specs.Prelude.{◌≡◌, ◌≤◌, length};
ghost use Rattle.roman_io.specs.SinkCalls.{WritesTo, FailsWith};
ghost use Rattle.roman_opening.specs.RefusalLine.{refusal_line, kind_word, part_word, part_number, list_word, choice_words, rule_text};

use roman_io::{Failed, Sink};
use roman_library::{Part, Refusal};
use roman_parts::List;
use roman_read::Kind;
use roman_text::{Page, Piece};

/// Writes `refused DOCUMENT KIND PART NUMBER LIST INDEX` and a newline. For a choice, the line ends
/// with the number of the earlier transition and the name of the environment state.
pub fn put_refusal<O: Sink>(refusal: &Refusal, out: &mut O) -> Result<(), Failed>
    ensures puts { WritesTo O.Sink out.old out.new (refusal_line refusal.now) result }
    ensures cause { FailsWith O.Sink out.old out.new result }
{
    let mut page = Page::new();
    page.push(b"refused ", out)?;
    page.push(refusal.document.bytes(), out)?;
    page.push(rule_piece(refusal).bytes(), out)?;
    page.flush(out)
}

/// Returns the text after the document's name: the rule, and the place where it is broken.
fn rule_piece(refusal: &Refusal) -> Piece
    ensures { result ≡ rule_text refusal.now }
{
    let kind = Piece::new().text(b" ").text(word_of_kind(&refusal.kind));
    let part = kind.text(b" ").text(word_of_part(&refusal.part));
    let number = part.text(b" ").number(number_of_part(&refusal.part));
    let list = number.text(b" ").text(word_of_list(&refusal.list));
    let index = list.text(b" ").number(refusal.index);
    index.text(choice_piece(&refusal.kind).bytes()).text(b"\n")
}

/// Returns the words at the end of the line of a choice. They are empty for other kinds.
fn choice_piece(kind: &Kind) -> Piece
    ensures text { result ≡ choice_words kind.now }
    ensures short { length result ≤ 44 }
{
    let text = Piece::new();
    match kind {
        Kind::Choice { first, state } => text.text(b" ").number(*first).text(b" ").name(state),
        _ => text,
    }
}

fn word_of_kind(kind: &Kind) -> &'static [u8]
    ensures word { result.now ≡ kind_word kind.now }
    ensures short { length result.now ≤ 16 }
{
    match kind {
        Kind::Missing => b"missing",
        Kind::Form => b"form",
        Kind::BadName => b"badname",
        Kind::Repeated => b"repeated",
        Kind::Unknown => b"unknown",
        Kind::Count => b"count",
        Kind::Choice { .. } => b"choice",
        Kind::Version => b"version",
        Kind::NotJson => b"notjson",
        Kind::TooLong => b"toolong",
    }
}

/// Returns the word for the part of the document in which a rule is broken.
fn word_of_part(part: &Part) -> &'static [u8]
    ensures word { result.now ≡ part_word part.now }
    ensures short { length result.now ≤ 16 }
{
    match part {
        Part::System => b"system",
        Part::Environment => b"environment",
        Part::Behaviour(_) => b"behaviour",
        Part::Service(_) => b"service",
        Part::Target(_) => b"target",
        Part::Costs => b"costs",
    }
}

/// Returns the number of that part among the parts with the same word, counted from 0.
fn number_of_part(part: &Part) -> u32
    ensures { result ≡ part_number part.now }
{
    match part {
        Part::System => 0,
        Part::Environment => 0,
        Part::Behaviour(i) => *i,
        Part::Service(i) => *i,
        Part::Target(i) => *i,
        Part::Costs => 0,
    }
}

/// Returns the word for the list or member in which a rule is broken.
fn word_of_list(list: &List) -> &'static [u8]
    ensures word { result.now ≡ list_word list.now }
    ensures short { length result.now ≤ 16 }
{
    match list {
        List::Whole => b"whole",
        List::Roman => b"roman",
        List::Limit => b"limit",
        List::File => b"file",
        List::Name => b"name",
        List::States => b"states",
        List::Start => b"start",
        List::Actions => b"actions",
        List::Finals => b"final",
        List::Steps => b"steps",
        List::Behaviours => b"behaviours",
        List::Services => b"services",
        List::Behaviour => b"behaviour",
        List::State => b"state",
        List::Frozen => b"frozen",
        List::Rests => b"rests",
        List::Targets => b"targets",
    }
}
