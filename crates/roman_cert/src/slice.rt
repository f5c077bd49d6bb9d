//! Explains why a pair isn't related.
ghost use Rattle.std.specs.Prelude.{◌≡◌, ◌<◌, map};
ghost use Rattle.roman_io.specs.SinkCalls.{WritesTo, FailsWith};
ghost use Rattle.roman_model.specs.SystemArena.{arena};
ghost use Rattle.roman_model.specs.Composition.{Great};
ghost use Rattle.roman_model.specs.Explanation.{explanation, explain_text, ExplainedOrder};
ghost use Rattle.roman_model.specs.Numbers.{sizes_of, pair_at, entry_at};
ghost use Rattle.roman_model.specs.Play.{OpponentWins};
ghost use Rattle.roman_joint.specs.NamedSys.{system_of};
ghost use Rattle.roman_joint.specs.Names.{names_in};
ghost use Rattle.roman_order.specs.Board.{as_entry};
ghost use Rattle.roman_relation.specs.Greatest.{IsUpToDate};
ghost use Rattle.roman_cert.specs.Slices.{IsOrderOf, StandsIn, answers_text, entry_text, slice_text};
ghost use Rattle.roman_joint.specs.Pairs.{joint_pairs, arena_of};
ghost use Rattle.roman_text.specs.Pages.{Pushes};

use crate::answers::answer;
use crate::lines::{answer_piece, finish, push_lost};
use crate::marking::mark_slice;
use roman_io::{Failed, Sink, Steps};
use roman_joint::Joint;
use roman_model::Reason;
use roman_order::{Ahead, Order};
use roman_relation::Relation;
use roman_rules::Rules;
use roman_text::Page;
use std::sync::ledger::Ledger;

/// Writes the explanation of the pair `p`: the part of the removal list on which its entry depends,
/// each entry with the answers that defeat the services. Requires a complete list, and a pair that
/// isn't related.
///
/// The written entries are a removal list by themselves, and end with the entry of `p`. An opponent
/// who plays by them wins within as many requests as there are entries. Changes at most the marks
/// of the relation. Fails only if the sink's count of faults rose; a prefix of the explanation was
/// then written.
pub fn write_slice<O: Sink, L: Ledger>(
    relation: &mut Relation,
    p: u32,
    out: &mut O,
    steps: &mut Steps<L>,
) -> Result<(), Failed>
    requires relation { IsUpToDate relation.old }
    requires pair { p < joint_pairs relation.old.joint }
    requires unrelated { let s = system_of relation.old.joint in Great s (pair_at (sizes_of s) p) → ⊥ }
    ensures text { let s = system_of relation.old.joint in
        let L = map (entry_at s) relation.old.order.list in
        WritesTo O.Sink out.old out.new
        (explain_text s (names_in relation.old.joint) L (pair_at (sizes_of s) p)) result }
    ensures explained { let s = system_of relation.old.joint in
        ExplainedOrder s (map (entry_at s) relation.old.order.list) (pair_at (sizes_of s) p) }
    ensures wins { let s = system_of relation.old.joint in
        let here = pair_at (sizes_of s) p in
        let L = map (entry_at s) relation.old.order.list in
        OpponentWins s (explanation (arena s) L here) here }
    ensures relation { IsUpToDate relation.new }
    ensures rest { relation.new ≡ record relation.old {
      order = record relation.old.order { marks = relation.new.order.marks };
    } }
    ensures cause { FailsWith O.Sink out.old out.new result }
{
    relation.joint.known(); // the system is well formed
    relation.order.known(); // listed pairs are pairs of the system
    relation.order.stamp_all();
    mark_slice(&relation.joint, &mut relation.order, p, steps);
    write_marked(&relation.joint, &relation.order, out, steps)
}

/// Writes the lines of the entries whose pairs are marked, and then the last line.
#[tactic(auto, using(crate::proofs::Answering::entry_node))]
fn write_marked<O: Sink, L: Ledger>(
    joint: &Joint,
    order: &Order,
    out: &mut O,
    steps: &mut Steps<L>,
) -> Result<(), Failed>
    requires { IsOrderOf (arena_of joint.now) order.now }
    ensures text { WritesTo O.Sink out.old out.new (slice_text joint.now order.now) result }
    ensures cause { FailsWith O.Sink out.old out.new result }
{
    joint.known(); // the system is well formed
    order.known(); // listed pairs are pairs of the system
    let mut page = Page::new();
    let mut ahead = Ahead::nothing(0);
    for i in 0..order.len() {
        let (p, reason) = order.read_on(i, &mut ahead);
        if !order.marked(p) {
            continue;
        }
        let entry = Placed {
            place: i,
            pair: p,
            reason,
        };
        push_entry(joint, order, entry, &mut page, out, steps)?;
    }
    finish(&mut page, out)
}

/// An entry of the list, with its place there.
#[derive(Clone, Copy)]
struct Placed {
    place: u32,
    pair: u32,
    reason: Reason,
}

fn push_entry<O: Sink, L: Ledger>(
    joint: &Joint,
    order: &Order,
    entry: Placed,
    page: &mut Page,
    out: &mut O,
    steps: &mut Steps<L>,
) -> Result<(), Failed>
    requires order { IsOrderOf (arena_of joint.now) order.now }
    requires entry { StandsIn order.now.list entry entry.reason }
    ensures gathers { Pushes O.Sink out.old out.new page.old page.new
        (entry_text joint.now order.now.list (as_entry (entry.pair, entry.reason))) result }
    ensures cause { FailsWith O.Sink out.old out.new result }
{
    joint.known(); // allowed actions are actions of the system
    order.known(); // listed pairs are pairs of the system
    push_lost(joint, entry.pair, entry.reason, page, out)?;
    match entry.reason {
        Reason::Final => Ok(()),
        Reason::Act(a) => push_answers(joint, order, entry, a, page, out, steps),
    }
}

/// Pushes a line for each ready service, with its answer to an entry whose reason is the action `a`.
fn push_answers<O: Sink, L: Ledger>(
    joint: &Joint,
    order: &Order,
    entry: Placed,
    a: u8,
    page: &mut Page,
    out: &mut O,
    steps: &mut Steps<L>,
) -> Result<(), Failed>
    requires order { IsOrderOf (arena_of joint.now) order.now }
    requires entry { StandsIn order.now.list entry (Reason.Act a) }
    ensures gathers { Pushes O.Sink out.old out.new page.old page.new
        (answers_text joint.now order.now.list (as_entry (entry.pair, Reason.Act a))) result }
    ensures cause { FailsWith O.Sink out.old out.new result }
{
    joint.known(); // the system is well formed
    order.known(); // listed pairs are pairs of the system
    for k in 0..joint.seats() {
        if !joint.is_ready(k) {
            continue;
        }
        let found = answer(joint, order, entry.place, entry.pair, a, k, steps);
        let line = answer_piece(joint, k, found);
        page.push(line.bytes(), out)?;
    }
    Ok(())
}
