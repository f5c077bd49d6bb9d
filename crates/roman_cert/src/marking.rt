//! Marks the pairs of the entries on which an entry depends.
ghost use Rattle.std.specs.Prelude.{◌<◌, length, Some};
ghost use Rattle.roman_model.specs.Explanation.{answers};
ghost use Rattle.roman_order.specs.Board.{ChangesOnlyMarks};
ghost use Rattle.roman_cert.specs.Slices.{HasAct, IsOrderOf, MarksAnswers, MarksFrom, MarksSlice};

use crate::answers::answer;
use roman_io::Steps;
use roman_model::Reason;
use roman_order::Order;
use roman_rules::Rules;
use std::sync::ledger::Ledger;

/// Marks exactly the entries on which the entry of the pair `p` depends, that entry included. Each
/// answer to an entry comes before it, so one pass from the end of the list is enough.
pub(crate) fn mark_slice<J: Rules, L: Ledger>(
    joint: &J,
    order: &mut Order,
    p: u32,
    steps: &mut Steps<L>,
)
    requires order { IsOrderOf (J.arena joint.now) order.old }
    requires pair { p < length (J.arena joint.now).nodes }
    ensures marked { MarksSlice (J.arena joint.now) order.old.list p order.new }
    ensures rest { ChangesOnlyMarks order.old order.new }
{
    joint.known(); // no two pairs have the same number
    order.clear_marks();
    order.mark(p);
    for i in (0..order.len()).rev() {
        visit(joint, order, i, steps);
    }
}

/// Marks the defeating answers to the entry at place `i` if that entry is marked.
#[tactic(auto, using(crate::proofs::Answering::entry_node))]
fn visit<J: Rules, L: Ledger>(joint: &J, order: &mut Order, i: u32, steps: &mut Steps<L>)
    requires order { IsOrderOf (J.arena joint.now) order.old }
    requires place { i < length order.old.list }
    ensures marked { MarksFrom (J.arena joint.now) i order.old order.new }
    ensures rest { ChangesOnlyMarks order.old order.new }
{
    joint.known(); // no two pairs have the same number
    order.known(); // listed pairs are pairs of the system
    let (p, reason) = order.entry(i);
    if !order.marked(p) {
        return;
    }
    match reason {
        Reason::Final => {}
        Reason::Act(a) => mark_answers(joint, order, i, p, a, steps),
    }
}

/// Marks the defeating answers to the entry at place `i`, whose pair is `p` and whose reason is the
/// action `a`.
fn mark_answers<J: Rules, L: Ledger>(
    joint: &J,
    order: &mut Order,
    i: u32,
    p: u32,
    a: u8,
    steps: &mut Steps<L>,
)
    requires order { IsOrderOf (J.arena joint.now) order.old }
    requires entry { HasAct order.old.list i p a }
    ensures marked { MarksAnswers (J.arena joint.now) order.old order.new p (Reason.Act a) }
    ensures rest { ChangesOnlyMarks order.old order.new }
{
    joint.known(); // no two pairs have the same number
    for k in 0..joint.seats() {
        if let Some(q) = answer(joint, order, i, p, a, k, steps) {
            order.mark(q);
        }
    }
}
