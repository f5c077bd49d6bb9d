//! Marks the bands from which a band can be reached.
ghost use Rattle.std.specs.Prelude.{◌≡◌, ℕ, ◌+◌, ◌*◌, ◌^◌, ◌<◌};
ghost use Rattle.roman_joint.specs.NamedSys.{system_of};
ghost use Rattle.roman_joint.specs.Rows.{IsRow};
ghost use Rattle.roman_joint.specs.Bands.{mid_in};
ghost use Rattle.roman_joint.specs.Marks.{IsMarked, Grows, Marks, IsArrival, IsMoved, IsBeforeSeat, IsBeforeTarget, IsBeforeEnv, IsBeforeAction, seat_work, target_work, env_work, action_work};
ghost use Rattle.roman_joint.specs.Pairs.{joint_actions};

use crate::joint::Joint;
use crate::row::Row;
use crate::states::prev_states;
use roman_io::Steps;
use std::sync::ledger::Ledger;

/// Marks the band `y`, if the table has a place for it.
fn mark(marks: &mut [u64], y: u64)
    ensures grows { Grows marks.old marks.new }
    ensures marked { IsMarked marks.new y }
{
    let place = y / 64;
    if place >= marks.len() as u64 {
        return;
    }
    let lane = (y % 64) as u32;
    marks[place as usize] |= 1 << lane;
}

/// Returns the product of a state and a stride, which can't overflow.
fn times(state: u8, stride: u32) -> u64
    ensures value { result ≡ state * stride }
    ensures small { result < 2 ^ 40 }
{
    u64::from(state) * u64::from(stride)
}

/// Marks the band of the row `base + b * stride - taken`: the row in which a seat is in state `b`.
/// `taken` is the offset of the seat's current state. Counts one step.
fn mark_moved<L: Ledger>(
    marks: &mut [u64],
    base: u64,
    b: u8,
    stride: u32,
    taken: u64,
    band: u32,
    steps: &mut Steps<L>,
)
    requires base { base < 2 ^ 50 }
    requires band { 0 < band }
    ensures { Marks (IsMoved base stride taken band b) 1 marks.old marks.new steps.old steps.new }
{
    steps.tick();
    let whole = base + times(b, stride);
    if whole < taken {
        return;
    }
    mark(marks, (whole - taken) / u64::from(band));
}

/// An action in a state of the environment, by which pairs can lead to the band of a row.
#[derive(Clone, Copy)]
struct Arrival<'a> {
    joint: &'a Joint,
    row: &'a Row,
    env: u8,
    action: u8,
}

/// Marks the bands from which the seat `k`, before the band's own, goes to its state in the row.
/// `base` is the row before the step, but with the seat in its state after it.
#[tactic(auto, using(crate::proofs::GoodLemmas::seats_few))]
fn mark_seat<L: Ledger>(by: &Arrival<'_>, marks: &mut [u64], base: u64, k: u8, steps: &mut Steps<L>)
    requires arrival { IsArrival by.now }
    requires base { base < 2 ^ 50 }
    requires seat { k < mid_in (system_of by.now.joint.now) }
    ensures { let b = by.now in let s = system_of b.joint.now in
        Marks (IsBeforeSeat s b.row.now b.action b.env base k)
        (seat_work s b.row.now b.action b.env k) marks.old marks.new steps.old steps.new }
{
    let rows = by.joint.layout();
    let own = by.row.states[k as usize];
    let states = prev_states(by.joint, k, own, by.env, by.action);
    let stride = rows.strides[k as usize];
    let taken = times(own, stride);
    for b in states {
        mark_moved(marks, base, *b, stride, taken, rows.band, steps);
    }
}

/// Marks the bands at the target's state `t` from which the action leads to the row's band. If the
/// seat that moves isn't before the band's own, this is the band in which the seats before the
/// band's own have the same states.
#[tactic(auto, using(crate::proofs::GoodLemmas::target_move_fits))]
fn mark_target<L: Ledger>(by: &Arrival<'_>, marks: &mut [u64], t: u8, steps: &mut Steps<L>)
    requires { IsArrival by.now }
    ensures { let s = system_of by.now.joint.now in
        Marks (IsBeforeTarget s by.now.row.now by.now.action by.now.env t)
        (target_work s by.now.row.now by.now.action by.now.env) marks.old marks.new steps.old steps.new }
{
    let rows = by.joint.layout();
    let base = times(t, rows.target_rows) + times(by.env, rows.env_rows) + u64::from(by.row.part);
    mark(marks, base / u64::from(rows.band));
    for k in 0..rows.mid {
        mark_seat(by, marks, base, k, steps);
    }
}

/// Marks the bands from which the action leads to the row's band in the state of the environment.
fn mark_env<L: Ledger>(by: &Arrival<'_>, marks: &mut [u64], steps: &mut Steps<L>)
    requires { IsArrival by.now }
    ensures { let s = system_of by.now.joint.now in
        Marks (IsBeforeEnv s by.now.row.now by.now.action by.now.env)
        (env_work s by.now.row.now by.now.action by.now.env) marks.old marks.new steps.old steps.new }
{
    by.joint.known(); // the target is over the environment
    let targets = by.joint.target().into(by.row.target, by.env, by.action);
    for t in targets {
        mark_target(by, marks, *t, steps);
    }
}

/// Marks the bands from which the action leads to the row's band.
pub(crate) fn mark_action<L: Ledger>(
    joint: &Joint,
    row: &Row,
    marks: &mut [u64],
    a: u8,
    steps: &mut Steps<L>,
)
    requires row { (x : ℕ) × IsRow (system_of joint.now) x row.now }
    requires action { a < joint_actions joint.now }
    ensures { let s = system_of joint.now in
        Marks (IsBeforeAction s row.now a) (action_work s row.now a) marks.old marks.new steps.old steps.new }
{
    joint.known(); // there are at most 32 actions
    if (row.leading >> a) & 1 == 0 {
        return;
    }
    let envs = joint.environment().prev(row.env, a);
    for e in envs {
        let by = Arrival {
            joint,
            row,
            env: *e,
            action: a,
        };
        mark_env(&by, marks, steps);
    }
}
