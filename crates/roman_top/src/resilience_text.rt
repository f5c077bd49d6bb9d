//! Writes the text of `resilience`.
ghost use Rattle.std.specs.Prelude.{◌≡◌, ◌+◌, ◌<◌, ◌≤◌, ◌++◌, map, length, IfSome, if◌then◌else◌, codes, decimal};
ghost use Rattle.roman_io.specs.SinkCalls.{WritesTo, FailsWith};
ghost use Rattle.roman_model.specs.Explanation.{name_at};
ghost use Rattle.roman_joint.specs.Names.{seat_name};
ghost use Rattle.roman_relation.specs.Greatest.{IsRelation};
ghost use Rattle.roman_text.specs.Pages.{Pushes};
ghost use Rattle.roman_whatif.specs.Left.{failing_places};
ghost use Rattle.roman_whatif.specs.Losses.{AreLosses, MayFail};
ghost use Rattle.roman_whatif.specs.Told.{told};
ghost use Rattle.roman_cost.specs.NamedWords.{IsPairNumber};
ghost use Rattle.roman_top.specs.ContractWords.{head_for, outlooks_for, lines_for, ones_for, twos_for, twos_with};
ghost use Rattle.roman_top.specs.ResilienceText.{outlook_words, way_word, service_names, line_without};

use roman_io::{Failed, Sink};
use roman_joint::Joint;
use roman_relation::Relation;
use roman_text::{Page, Piece};
use roman_whatif::{Losses, Outlook, Way, now};

/// Writes the outlook of a pair of `base`, and its outlook without each one and each two of the
/// services.
pub(crate) fn put_outlooks<O: Sink>(
    base: &Relation,
    losses: &Losses,
    out: &mut O,
) -> Result<(), Failed>
    requires base { IsRelation base.now.joint base.now.order }
    requires losses { AreLosses base.now.joint losses.now }
    ensures puts { WritesTo O.Sink out.old out.new (outlooks_for base.now.joint losses.now.pair) result }
    ensures cause { FailsWith O.Sink out.old out.new result }
{
    let mut page = Page::new();
    push_head(base, losses.pair, &mut page, out)?;
    push_ones(&base.joint, losses, &mut page, out)?;
    push_twos(&base.joint, losses, &mut page, out)?;
    page.push(b"end\n", out)?;
    page.flush(out)
}

/// Pushes the number of services, and the outlook of the pair `p`.
fn push_head<O: Sink>(base: &Relation, p: u32, page: &mut Page, out: &mut O) -> Result<(), Failed>
    requires base { IsRelation base.now.joint base.now.order }
    requires pair { IsPairNumber base.now.joint p }
    ensures gathers { Pushes O.Sink out.old out.new page.old page.new (head_for base.now.joint p) result }
    ensures cause { FailsWith O.Sink out.old out.new result }
{
    let services = services_piece(base.joint.seats());
    page.push(services.bytes(), out)?;
    page.push(outlook_piece(&now(base, p)).bytes(), out)
}

/// Pushes the lines for the failure of each single service.
fn push_ones<O: Sink>(
    joint: &Joint,
    losses: &Losses,
    page: &mut Page,
    out: &mut O,
) -> Result<(), Failed>
    requires losses { AreLosses joint.now losses.now }
    ensures gathers { Pushes O.Sink out.old out.new page.old page.new (ones_for joint.now losses.now.pair) result }
    ensures cause { FailsWith O.Sink out.old out.new result }
{
    for k in 0..joint.seats() {
        push_lines(joint, losses, k, None, page, out)?;
    }
    Ok(())
}

/// Pushes the lines for the failure of each two services.
fn push_twos<O: Sink>(
    joint: &Joint,
    losses: &Losses,
    page: &mut Page,
    out: &mut O,
) -> Result<(), Failed>
    requires losses { AreLosses joint.now losses.now }
    ensures gathers { Pushes O.Sink out.old out.new page.old page.new (twos_for joint.now losses.now.pair) result }
    ensures cause { FailsWith O.Sink out.old out.new result }
{
    for k in 0..joint.seats() {
        push_twos_with(joint, losses, k, page, out)?;
    }
    Ok(())
}

/// Pushes the lines for the failure of the service at place `k` with each service after it.
fn push_twos_with<O: Sink>(
    joint: &Joint,
    losses: &Losses,
    k: u8,
    page: &mut Page,
    out: &mut O,
) -> Result<(), Failed>
    requires losses { AreLosses joint.now losses.now }
    requires place { k < length joint.now.seats }
    ensures gathers { Pushes O.Sink out.old out.new page.old page.new
        (twos_with joint.now losses.now.pair k) result }
    ensures cause { FailsWith O.Sink out.old out.new result }
{
    for j in k + 1..joint.seats() {
        push_lines(joint, losses, k, Some(j), page, out)?;
    }
    Ok(())
}

/// Pushes two lines for one or two services: the outlook after they freeze, and after they die.
fn push_lines<O: Sink>(
    joint: &Joint,
    losses: &Losses,
    first: u8,
    second: Option<u8>,
    page: &mut Page,
    out: &mut O,
) -> Result<(), Failed>
    requires losses { AreLosses joint.now losses.now }
    requires places { MayFail joint.now first second }
    ensures gathers { Pushes O.Sink out.old out.new page.old page.new
        (lines_for joint.now losses.now.pair (failing_places first second)) result }
    ensures cause { FailsWith O.Sink out.old out.new result }
{
    let frozen = losses.left(first, second, Way::Freeze);
    push_line(joint, first, second, Way::Freeze, &frozen, page, out)?;
    let gone = losses.left(first, second, Way::Die);
    push_line(joint, first, second, Way::Die, &gone, page, out)
}

/// Pushes the line with the outlook `left` for the failure of one or two services.
fn push_line<O: Sink>(
    joint: &Joint,
    first: u8,
    second: Option<u8>,
    way: Way,
    left: &Outlook,
    page: &mut Page,
    out: &mut O,
) -> Result<(), Failed>
    requires first { first < length joint.now.seats }
    requires second { IfSome second (λ j. j < length joint.now.seats) }
    ensures gathers { Pushes O.Sink out.old out.new page.old page.new
        (line_without joint.now (failing_places first second) way (told left.now)) result }
    ensures cause { FailsWith O.Sink out.old out.new result }
{
    let prefix = names_piece(joint, first, second).text(way_word(way));
    page.push(prefix.bytes(), out)?;
    page.push(outlook_piece(left).bytes(), out)
}

/// Returns the line with the number of services, and the first word of the next line.
fn services_piece(services: u8) -> Piece
    ensures { result ≡ codes "services " ++ decimal services ++ codes "\nstart" }
{
    Piece::new()
        .text(b"services ")
        .number(u32::from(services))
        .text(b"\nstart")
}

/// Returns the word `without` and the names of the services that fail.
fn names_piece(joint: &Joint, first: u8, second: Option<u8>) -> Piece
    requires first { first < length joint.now.seats }
    requires second { IfSome second (λ j. j < length joint.now.seats) }
    ensures text { result ≡ codes "without" ++ service_names joint.now (failing_places first second) }
    ensures short { length result ≤ 80 }
{
    let one = with_name(Piece::new().text(b"without"), joint, first);
    match second {
        None => one,
        Some(second) => with_name(one, joint, second),
    }
}

/// Appends a space and the name of the service at place `k`.
#[tactic(auto, using(roman_session::proofs::CallerLemmas::mapped_at))]
fn with_name(piece: Piece, joint: &Joint, k: u8) -> Piece
    requires place { k < length joint.now.seats }
    requires room { length piece ≤ 95 }
    ensures text { result ≡ piece ++ (codes " " ++ name_at (map seat_name joint.now.seats) k) }
    ensures len { length result ≤ length piece + 33 }
{
    piece.text(b" ").name(&joint.seat(k).name)
}

/// Returns the word for the way in which services fail, after a space.
fn way_word(way: Way) -> &'static [u8]
    ensures word { result.now ≡ way_word way }
    ensures short { length result.now ≤ 16 }
{
    match way {
        Way::Freeze => b" freeze",
        Way::Die => b" die",
    }
}

/// Returns the words of an outlook, from the space before them to the end of the line.
fn outlook_piece(outlook: &Outlook) -> Piece
    ensures { result ≡ outlook_words (told outlook.now) }
{
    let answer = Piece::new().text(answer_words(outlook.composes));
    let related = answer.number(outlook.related);
    related
        .text(b" choices ")
        .long_number(outlook.choices)
        .text(b"\n")
}

/// Returns the words that state whether the pair is related, up to the number of related pairs.
fn answer_words(composes: bool) -> &'static [u8]
    ensures words { result.now ≡ (if composes then codes " composition related " else codes " none related ") }
    ensures short { length result.now ≤ 32 }
{
    if composes {
        b" composition related "
    } else {
        b" none related "
    }
}
