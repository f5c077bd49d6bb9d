//! Writes the certificate of a relation.
ghost use Rattle.std.specs.Prelude.{◌≡◌, [], ◌∷◌, IfSome, OnOk};
ghost use Rattle.roman_io.specs.SinkCalls.{WritesTo, FailsWith};
ghost use Rattle.roman_text.specs.Lines.{with_newline};
ghost use Rattle.roman_text.specs.Pages.{Pushes};
ghost use Rattle.roman_model.specs.Lines.{text_of_lines};
ghost use Rattle.roman_model.specs.Certificate.{head_line, count_line, reason_text, entry_line, cert_text};
ghost use Rattle.roman_order.specs.Board.{as_entry};
ghost use Rattle.roman_cert.specs.Certified.{HasFullList, IsTemplate, WritesGreatest, cert_of};

use crate::lines::finish;
use crate::template::Template;
use roman_io::{Failed, Sink};
use roman_model::Reason;
use roman_order::{Ahead, Order};
use roman_relation::Relation;
use roman_rules::Rules;
use roman_text::{Page, Piece};

/// Writes the certificate of a relation: its removal list, one entry a line. A checker accepts the
/// certificate of a complete list. Fails only if the sink's count of faults rose; a prefix of the
/// certificate was then written.
pub fn write_order<O: Sink>(relation: &Relation, out: &mut O) -> Result<(), Failed>
    ensures text { WritesTo O.Sink out.old out.new (cert_of relation.now) result }
    ensures accepted { HasFullList relation.now →
        OnOk result (WritesGreatest O.Sink out.old out.new relation.now) }
    ensures cause { FailsWith O.Sink out.old out.new result }
{
    relation.joint.known(); // the system is well formed and within its limit
    write_list(relation.joint.pairs(), &relation.order, out)
}

/// Writes the certificate of a list, in a system of `pairs` pairs.
pub(crate) fn write_list<O: Sink>(pairs: u32, order: &Order, out: &mut O) -> Result<(), Failed>
    ensures text { WritesTo O.Sink out.old out.new (cert_text pairs order.now.list) result }
    ensures cause { FailsWith O.Sink out.old out.new result }
{
    let mut page = Page::new();
    let head = head_piece(pairs);
    page.push(head.bytes(), out)?;
    let mut template = Template::new();
    let mut ahead = Ahead::nothing(0);
    for i in 0..order.len() {
        let (pair, reason) = order.read_on(i, &mut ahead);
        push_entry(pair, reason, &mut template, &mut page, out)?;
    }
    finish(&mut page, out)
}

/// Returns the first two lines of a certificate.
fn head_piece(pairs: u32) -> Piece
    ensures { result ≡ text_of_lines (head_line ∷ count_line pairs ∷ []) }
{
    let text = Piece::new().text(b"roman-order 1\npairs ");
    text.number(pairs).text(b"\n")
}

/// Returns the letter that is the text of a reason, or `None` if the text is longer.
#[inline(always)]
#[tactic(auto, using(std::proofs::lemmas::Fmt::decimal_digit))]
fn letter_of(reason: Reason) -> Option<u8>
    ensures { IfSome result (λ letter. reason_text reason ≡ letter ∷ []) }
{
    match reason {
        Reason::Final => Some(b'f'),
        Reason::Act(action) => {
            if action >= 10 {
                return None;
            }
            Some(b'0' + action)
        }
    }
}

/// Pushes the line of an entry on the page. Makes it from the line before if the pair has at least
/// three digits and the reason is one letter.
#[inline(always)]
fn push_entry<O: Sink>(
    pair: u32,
    reason: Reason,
    template: &mut Template,
    page: &mut Page,
    out: &mut O,
) -> Result<(), Failed>
    requires template { IsTemplate template.old }
    ensures template { IsTemplate template.new }
    ensures gathers { Pushes O.Sink out.old out.new page.old page.new
        (with_newline (entry_line (as_entry (pair, reason)))) result }
    ensures cause { FailsWith O.Sink out.old out.new result }
{
    let Some(letter) = letter_of(reason) else {
        return push_entry_line(pair, reason, page, out);
    };
    if pair < 100 {
        return push_entry_line(pair, reason, page, out);
    }
    template.put(pair, letter);
    page.push_short(&template.text, template.len, out)
}

/// Pushes the line of an entry on the page, from its number and its reason.
#[inline(never)]
fn push_entry_line<O: Sink>(
    pair: u32,
    reason: Reason,
    page: &mut Page,
    out: &mut O,
) -> Result<(), Failed>
    ensures gathers { Pushes O.Sink out.old out.new page.old page.new
        (with_newline (entry_line (as_entry (pair, reason)))) result }
    ensures cause { FailsWith O.Sink out.old out.new result }
{
    let Reason::Act(action) = reason else {
        return page.push_number_then(pair, b" f\n", out);
    };
    let (tens, ones) = (b'0' + action % 100 / 10, b'0' + action % 10);
    if action < 10 {
        return page.push_number_then(pair, &[b' ', ones, b'\n'], out);
    }
    if action < 100 {
        return page.push_number_then(pair, &[b' ', tens, ones, b'\n'], out);
    }
    page.push_number_then(pair, &[b' ', b'0' + action / 100, tens, ones, b'\n'], out)
}
