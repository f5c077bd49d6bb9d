//! The pairs of a row at which seats serve an action.
ghost use Rattle.std.specs.Prelude.{◌≡◌, ℕ, ◌*◌, ◌<◌, ◌≤◌, Bool, length};
ghost use Rattle.roman_joint.specs.NamedSys.{system_of};
ghost use Rattle.roman_joint.specs.Rows.{low_in, HasAlive, IsAttempt, AreAlive, AreServed};

use crate::attempt::{Attempt, row_outcomes, target_move_of};
use crate::joint::Joint;
use crate::row::Row;
use crate::words::{all_alive, moves_alive, rows_alive};

/// Returns the lanes at which a seat before the lanes serves the action.
#[inline(always)]
fn good_before(joint: &Joint, attempt: &Attempt<'_>, k: u8) -> u64
    requires attempt { (x : ℕ) × IsAttempt (system_of joint.now) x attempt.now }
    requires seat { k < low_in (system_of joint.now) }
    ensures { (alive : ℕ) → AreServed (system_of joint.now) attempt.now alive k result }
{
    let rows = joint.layout();
    let Some(to) = row_outcomes(joint, attempt, k) else {
        return 0;
    };
    all_alive(attempt.words, &to, rows.full)
}

/// Returns the alive lanes of an attempt: those at which it leads to no pair that is gone, in any state of
/// the environment.
pub(crate) fn alive_on(joint: &Joint, attempt: &Attempt<'_>) -> u64
    requires { (x : ℕ) × IsAttempt (system_of joint.now) x attempt.now }
    ensures { (gone : ℕ → Bool) → HasAlive (system_of joint.now) gone attempt.now.words.now →
        AreAlive (system_of joint.now) gone attempt.now.to result }
{
    let rows = joint.layout();
    let to = &attempt.to;
    rows_alive(attempt.words, to.base, to.envs, rows.env_rows, rows.full)
}

/// Returns the lanes at which a seat within the lanes serves the action. `alive` holds the alive lanes
/// of the attempt.
#[inline(always)]
fn good_within(joint: &Joint, attempt: &Attempt<'_>, alive: u64, k: u8) -> u64
    requires attempt { (x : ℕ) × IsAttempt (system_of joint.now) x attempt.now }
    requires within { low_in (system_of joint.now) ≤ k }
    requires seat { k < length joint.now.seats }
    ensures { AreServed (system_of joint.now) attempt.now alive k result }
{
    joint.known(); // outcomes need an allowed action and a ready seat
    let (some, moves) = joint.lane_moves(k, attempt.row.env, attempt.action);
    moves_alive(alive, moves, some)
}

/// Returns the lanes at which a seat serves the action. `alive` holds the alive lanes of the attempt.
#[inline(always)]
pub(crate) fn good_on(joint: &Joint, attempt: &Attempt<'_>, alive: u64, k: u8) -> u64
    requires attempt { (x : ℕ) × IsAttempt (system_of joint.now) x attempt.now }
    requires seat { k < length joint.now.seats }
    ensures { AreServed (system_of joint.now) attempt.now alive k result }
{
    if k < joint.layout().low {
        good_before(joint, attempt, k)
    } else {
        good_within(joint, attempt, alive, k)
    }
}

/// Returns how many of the first seats have to be tried for an action. If no lane is alive, these
/// are the seats before the lanes, since the others serve at no pair.
#[tactic(auto, using(crate::proofs::GoodLemmas::seat_counts))]
pub(crate) fn serving(joint: &Joint, alive: u64) -> u8
    ensures few { result ≤ length joint.now.seats }
    ensures rest { (k : ℕ) → result ≤ k → k < length joint.now.seats → (low_in (system_of joint.now) ≤ k)
        × (alive ≡ 0) }
{
    if alive == 0 {
        return joint.layout().low;
    }
    joint.seats()
}
