//! The states to which an action leads from a row, whichever service serves it.
ghost use Rattle.std.specs.Prelude.{◌≡◌, ℕ, ◌<◌, [], IsFalse, MatchOption};
ghost use Rattle.roman_joint.specs.NamedSys.{system_of};
ghost use Rattle.roman_joint.specs.Rows.{low_in, IsRow, IsTargetMove, IsAttempt, is_open};
ghost use Rattle.roman_joint.specs.Bands.{next_by, AreRowsBefore};
ghost use Rattle.roman_joint.specs.Pairs.{joint_actions};

use crate::joint::Joint;
use crate::outcomes::Outcomes;
use crate::row::Row;
use crate::states::next_states;

/// The states to which an action leads from a row: one state of the target, and some of the
/// environment.
#[derive(Clone, Copy)]
pub(crate) struct TargetMove<'a> {
    /// The row at that state of the target and the environment's state 0, with unchanged services.
    pub(crate) base: u32,
    /// The environment's next states.
    pub(crate) envs: &'a [u8],
}

/// An action at a row, or at the rows of a band: the states to which it leads, and the words of the
/// pairs that aren't gone.
#[derive(Clone, Copy)]
pub(crate) struct Attempt<'a> {
    pub(crate) words: &'a [u64],
    pub(crate) row: &'a Row,
    pub(crate) action: u8,
    pub(crate) to: TargetMove<'a>,
}

/// Returns the states to which the action `a` leads from a row, or `None` exactly if the action
/// isn't allowed there.
#[tactic(auto, using(roman_rules::proofs::CallerLemmas::bit_off, std::proofs::lemmas::Nat::Bits::shr_and_one, crate::proofs::GoodLemmas::target_move_fits))]
pub(crate) fn target_move_of<'a>(joint: &'a Joint, row: &Row, a: u8) -> Option<TargetMove<'a>>
    requires row { (x : ℕ) × IsRow (system_of joint.now) x row.now }
    requires action { a < joint_actions joint.now }
    ensures { MatchOption result (IsFalse (is_open (system_of joint.now) row.now a))
        (IsTargetMove (system_of joint.now) row.now a) }
{
    let rows = joint.layout();
    if (row.allowed >> a) & 1 == 0 {
        return None;
    }
    let Some(to) = joint.target().step(row.target, row.env, a) else {
        return None;
    };
    let envs = joint.environment().next(row.env, a);
    if envs.is_empty() {
        return None;
    }
    let base = u32::from(to) * rows.target_rows + row.part;
    Some(TargetMove { base, envs })
}

/// Returns the rows to which the seat `k` leads from the attempt's row, or `None` exactly if it has
/// no next state. The seat is before the lanes.
#[inline(always)]
#[tactic(auto, using(crate::proofs::GoodLemmas::seats_few))]
pub(crate) fn row_outcomes<'a>(
    joint: &'a Joint,
    attempt: &Attempt<'a>,
    k: u8,
) -> Option<Outcomes<'a>>
    requires attempt { (x : ℕ) × IsAttempt (system_of joint.now) x attempt.now }
    requires seat { k < low_in (system_of joint.now) }
    ensures { let s = system_of joint.now in let at = attempt.now in
        MatchOption result (next_by s at.row.now at.action k ≡ []) (AreRowsBefore s at.row.now at.to at.action k) }
{
    let rows = joint.layout();
    let b = attempt.row.states[k as usize];
    let states = next_states(joint, k, b, attempt.row.env, attempt.action);
    if states.is_empty() {
        return None;
    }
    let stride = rows.strides[k as usize];
    Some(Outcomes {
        base: attempt.to.base - u32::from(b) * stride,
        envs: attempt.to.envs,
        env_stride: rows.env_rows,
        states,
        stride,
    })
}
