//! Writes the text of advice.
ghost use Rattle.std.specs.Prelude.{◌≡◌, ◌-◌, ◌<◌, ◌≤◌, ◌++◌};
ghost use Rattle.roman_io.specs.SinkCalls.{WritesTo, FailsWith};
ghost use Rattle.roman_model.specs.Plans as plans;
ghost use Rattle.roman_model.specs.System.{Sys};
ghost use Rattle.roman_joint.specs.NamedSys.{system_of};
ghost use Rattle.roman_cost.specs.AdviceText.{worst_line, value_head, value_tail, value_lines, certificate_text, service_text};
ghost use Rattle.roman_cost.specs.Advised.{Advises};
ghost use Rattle.roman_cost.specs.Laws.{AdviceIsLeast};
ghost use Rattle.roman_cost.specs.NamedWords.{CanAdvise, AllowsAt, advice_from, action_line, action_lines};
ghost use Rattle.roman_text.specs.Pages.{Pushes};

use crate::advice::Advice;
use crate::costs::Costs;
use roman_io::{Failed, Sink};
use roman_read::Name;
use roman_relation::Relation;
use roman_rules::Rules;
use roman_text::{Page, Piece};

/// Writes the text of advice from the related pair `start` on. The text has the worst cost of the
/// requests for which the advice was built. For each action that the target allows at the pair it
/// has the service to take, and the cost of the requests through it. It has all values for one
/// request or more. Requires the relation and the costs of [`build`](Advice::build).
///
/// Fails only when the sink's count of faults rose; it then wrote a prefix of the text.
pub fn put_advice<O: Sink>(
    advice: &Advice,
    relation: &Relation,
    costs: &Costs,
    start: u32,
    out: &mut O,
) -> Result<(), Failed>
    requires known { CanAdvise relation.now costs.now advice.now start }
    requires some { 0 < advice.now.requests }
    ensures puts { WritesTo O.Sink out.old out.new
        (advice_from relation.now.joint costs.now advice.now.requests start) result }
    ensures cause { FailsWith O.Sink out.old out.new result }
{
    let worst = advice.value(advice.requests(), start);
    let mut page = Page::new();
    page.push(worst_piece(worst).bytes(), out)?;
    push_choices(advice, relation, costs, start, &mut page, out)?;
    push_values(advice, &mut page, out)?;
    page.push(b"end\n", out)?;
    page.flush(out)
}

/// Returns the line `worst W`.
fn worst_piece(value: u32) -> Piece
    ensures { result ≡ worst_line value }
{
    Piece::new().text(b"worst ").number(value).text(b"\n")
}

/// Puts on the page the line of each action that the target allows at the pair `start`.
fn push_choices<O: Sink>(
    advice: &Advice,
    relation: &Relation,
    costs: &Costs,
    start: u32,
    page: &mut Page,
    out: &mut O,
) -> Result<(), Failed>
    requires known { CanAdvise relation.now costs.now advice.now start }
    requires some { 0 < advice.now.requests }
    ensures gathers { Pushes O.Sink out.old out.new page.old page.new
        (action_lines relation.now.joint costs.now (advice.now.requests - 1) start) result }
    ensures cause { FailsWith O.Sink out.old out.new result }
{
    relation.joint.known(); // the system is well formed
    for a in 0..relation.joint.actions() {
        if !relation.joint.allowed(start, a) {
            continue;
        }
        let line = choice_piece(advice, relation, costs, start, a);
        page.push(line.bytes(), out)?;
    }
    Ok(())
}

/// Returns the line of the action `a`, which the target allows at the related pair `start`.
fn choice_piece(advice: &Advice, relation: &Relation, costs: &Costs, start: u32, a: u8) -> Piece
    requires known { CanAdvise relation.now costs.now advice.now start }
    requires some { 0 < advice.now.requests }
    requires action { a < (system_of relation.now.joint).env.actions }
    requires allowed { AllowsAt relation.now.joint start a }
    ensures { result ≡ action_line relation.now.joint costs.now (advice.now.requests - 1) start a }
{
    relation.joint.known(); // the system is well formed
    let (seat, cost) = advice.choice(relation, costs, advice.requests(), start, a);
    let action = relation.joint.environment().actions().at(u32::from(a));
    let service = &relation.joint.seat(seat).name;
    service_piece(action, service, cost)
}

/// Returns the line `for A: S W`.
fn service_piece(action: &Name, service: &Name, cost: u32) -> Piece
    ensures { result ≡ service_text action.now service.now cost }
{
    let action = Piece::new().text(b"for ").name(action).text(b": ");
    let service = action.name(service).text(b" ");
    service.number(cost).text(b"\n")
}

/// Puts on the page the lines of all values for one request or more.
fn push_values<O: Sink>(advice: &Advice, page: &mut Page, out: &mut O) -> Result<(), Failed>
    ensures gathers { (s : Sys) (C : plans.Costs) → Advises s C advice.now
        → Pushes O.Sink out.old out.new page.old page.new (certificate_text s C advice.now.requests) result }
    ensures cause { FailsWith O.Sink out.old out.new result }
{
    for h in 0..advice.requests() {
        push_values_for(advice, h + 1, page, out)?;
    }
    Ok(())
}

/// Puts on the page the lines of the values for `h` requests.
fn push_values_for<O: Sink>(
    advice: &Advice,
    h: u8,
    page: &mut Page,
    out: &mut O,
) -> Result<(), Failed>
    requires { h ≤ advice.now.requests }
    ensures gathers { (s : Sys) (C : plans.Costs) → Advises s C advice.now
        → Pushes O.Sink out.old out.new page.old page.new (value_lines s C h) result }
    ensures cause { FailsWith O.Sink out.old out.new result }
{
    let head = head_piece(h);
    let values = advice.least_costs(h);
    for (i, p) in advice.pairs().iter().enumerate() {
        push_value(head.bytes(), *p, values[i], page, out)?;
    }
    Ok(())
}

/// Returns `value H `, with which the lines of the values for `h` requests begin.
fn head_piece(h: u8) -> Piece
    ensures { result ≡ value_head h }
{
    Piece::new().text(b"value ").number(u32::from(h)).text(b" ")
}

/// Puts on the page the line of a value, which begins with `head`.
fn push_value<O: Sink>(
    head: &[u8],
    p: u32,
    value: u32,
    page: &mut Page,
    out: &mut O,
) -> Result<(), Failed>
    ensures gathers { Pushes O.Sink out.old out.new page.old page.new
        (head.now ++ value_tail p value) result }
    ensures cause { FailsWith O.Sink out.old out.new result }
{
    page.push(head, out)?;
    page.push_number_then(p, b" ", out)?;
    page.push_number_then(value, b"\n", out)
}

/// Does nothing. Its contract states a law on the text of advice. Each value of the text is the
/// least worst-case cost of that number of requests, over all plans, at a pair of the greatest
/// ND-simulation. The text names all such pairs and no others. For each action that the target
/// allows at the pair of the advice, it names the first of the cheapest services that serve the
/// action, and its cost.
#[tactic(auto, using(crate::proofs::LawLemmas::advice_least))]
pub fn advice_is_least()
    ensures least { AdviceIsLeast }
{}
