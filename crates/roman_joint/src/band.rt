//! The pairs of a band of rows that no service serves.
ghost use Rattle.std.specs.Prelude.{◌≡◌, ℕ, ◌+◌, ◌*◌, ◌<◌, ◌≤◌, Bool, List, not, count_by, sum_by, drop, length, IfSome};
ghost use Rattle.roman_model.specs.Lists.{all_below, below};
ghost use Rattle.roman_model.specs.Arena.{is_beaten};
ghost use Rattle.roman_model.specs.Numbers.{count, numbered};
ghost use Rattle.roman_lanes.specs.Rows.{Keeps};
ghost use Rattle.roman_joint.specs.NamedSys.{system_of};
ghost use Rattle.roman_joint.specs.Rows.{lanes_in, low_in, HasAlive, IsRow};
ghost use Rattle.roman_joint.specs.Bands.{mid_in, band_in, AllAlive, FollowsAlive, IsBandAttempt, SuitsBand, ClearsServed, ClearsAllServed};

use crate::attempt::{Attempt, row_outcomes, target_move_of};
use crate::joint::Joint;
use crate::moving::clear_moving;
use crate::row::Row;
use crate::states::service;
use crate::stripes::{Stripe, clear_alive, clear_state, rows_alive_each, set_first};
use crate::words::less;
use roman_rules::{BAND, are_clear};

/// Clears, in `left`, the pairs of a band at which the seat `k` serves the action. The seat is
/// before the band's own seats.
#[tactic(auto, using(roman_radix::proofs::CallerLemmas::lanes_few))]
fn clear_before(joint: &Joint, attempt: &Attempt<'_>, k: u8, left: &mut [u64])
    requires attempt { IsBandAttempt (system_of joint.now) attempt.now }
    requires seat { k < mid_in (system_of joint.now) }
    requires long { length left.old ≡ band_in (system_of joint.now) }
    ensures { (alive : List ℕ) → ClearsServed (system_of joint.now) attempt.now alive k left.old left.new }
{
    let rows = joint.layout();
    let Some(to) = row_outcomes(joint, attempt, k) else {
        return;
    };
    clear_alive(left, attempt.words, &to, rows.full);
}

/// Writes, for each row of a band, the alive lanes of its attempt: those at which it leads to no pair
/// that is gone, in any state of the environment.
pub(crate) fn alive_each(joint: &Joint, attempt: &Attempt<'_>, alive: &mut [u64])
    requires attempt { IsBandAttempt (system_of joint.now) attempt.now }
    requires long { band_in (system_of joint.now) ≤ length alive.old }
    ensures long { length alive.new ≡ length alive.old }
    ensures alive { FollowsAlive (system_of joint.now) attempt.now alive.new }
{
    let rows = joint.layout();
    let many = rows.band as usize;
    let alive = &mut alive[..many];
    set_first(alive, many, rows.full);
    let to = &attempt.to;
    rows_alive_each(alive, attempt.words, to.base, to.envs, rows.env_rows);
}

/// Returns the only row to which the attempt leads from the first row of a band. Its word and those
/// of the next rows are the alive lanes of the attempts of the band's rows. Returns `None` if it
/// leads to several rows.
fn only_row(joint: &Joint, attempt: &Attempt<'_>) -> Option<usize>
    requires attempt { IsBandAttempt (system_of joint.now) attempt.now }
    ensures within { IfSome result (λ from. from + band_in (system_of joint.now) ≤ length attempt.now.words.now) }
    ensures alive { IfSome result (λ from.
        FollowsAlive (system_of joint.now) attempt.now (drop from attempt.now.words.now)) }
{
    let rows = joint.layout();
    let to = &attempt.to;
    if to.envs.len() != 1 {
        return None;
    }
    Some((to.base + u32::from(to.envs[0]) * rows.env_rows) as usize)
}

/// Clears, in `left`, the pairs of a band at which the seat `k` serves the action. The seat is one of
/// the band's own. `alive` holds the alive lanes of each row's attempt.
fn clear_own(joint: &Joint, attempt: &Attempt<'_>, alive: &[u64], k: u8, left: &mut [u64])
    requires band { SuitsBand (system_of joint.now) attempt.now alive.now left.old }
    requires within { mid_in (system_of joint.now) ≤ k }
    requires seat { k < low_in (system_of joint.now) }
    ensures { ClearsServed (system_of joint.now) attempt.now alive.now k left.old left.new }
{
    let rows = joint.layout();
    let (seat, behaviour) = service(joint, k);
    if seat.frozen {
        return;
    }
    let size = rows.sizes[k as usize];
    let stride = rows.strides[k as usize];
    let blocks = rows.band / (u32::from(size) * stride);
    let e = attempt.row.env;
    let a = attempt.action;
    for b in 0..size {
        let states = behaviour.out(b, e, a);
        if states.is_empty() {
            continue;
        }
        let stripe = Stripe {
            alive,
            from: 0,
            states,
            stride: stride as usize,
        };
        clear_state(left, &stripe, b, size, blocks as usize);
    }
}

/// Clears, in `left`, the pairs of a band at which the seat `k` serves the action. The seat is within
/// the lanes. `alive` holds the alive lanes of each row's attempt.
fn clear_within(joint: &Joint, attempt: &Attempt<'_>, alive: &[u64], k: u8, left: &mut [u64])
    requires band { SuitsBand (system_of joint.now) attempt.now alive.now left.old }
    requires within { low_in (system_of joint.now) ≤ k }
    requires seat { k < length joint.now.seats }
    ensures { ClearsServed (system_of joint.now) attempt.now alive.now k left.old left.new }
{
    joint.layout();
    let (some, moves) = joint.lane_moves(k, attempt.row.env, attempt.action);
    if some == 0 {
        return;
    }
    clear_moving(left, alive, moves, some);
}

/// Clears, in `left`, the pairs of a band at which the seat `k` serves the action. `alive` holds the
/// alive lanes of each row's attempt.
#[inline(always)]
pub(crate) fn clear_seat(
    joint: &Joint,
    attempt: &Attempt<'_>,
    alive: &[u64],
    k: u8,
    left: &mut [u64],
)
    requires band { SuitsBand (system_of joint.now) attempt.now alive.now left.old }
    requires seat { k < length joint.now.seats }
    ensures { ClearsServed (system_of joint.now) attempt.now alive.now k left.old left.new }
{
    let rows = joint.layout();
    if k < rows.mid {
        clear_before(joint, attempt, k, left);
    } else if k < rows.low {
        clear_own(joint, attempt, alive, k, left);
    } else {
        clear_within(joint, attempt, alive, k, left);
    }
}

/// Clears, in `left`, the pairs of a band at which some seat serves the action. `alive` holds the alive
/// lanes of each row's attempt.
fn clear_seats(joint: &Joint, attempt: &Attempt<'_>, alive: &[u64], left: &mut [u64])
    requires { SuitsBand (system_of joint.now) attempt.now alive.now left.old }
    ensures { ClearsAllServed (system_of joint.now) attempt.now alive.now
        (length (system_of joint.now).seats) left.old left.new }
{
    for k in 0..joint.seats() {
        if are_clear(left) {
            return;
        }
        clear_seat(joint, attempt, alive, k, left);
    }
}

/// Clears, in `left`, the pairs of a band at which some seat serves the action.
#[tactic(auto, using(roman_radix::proofs::CallerLemmas::lanes_few))]
pub(crate) fn clear_served(joint: &Joint, attempt: &Attempt<'_>, left: &mut [u64])
    requires attempt { IsBandAttempt (system_of joint.now) attempt.now }
    requires long { length left.old ≡ band_in (system_of joint.now) }
    ensures long { length left.new ≡ length left.old }
    ensures left { let s = system_of joint.now in
        (y : ℕ) (gone : ℕ → Bool) → IsRow s (y * band_in s) attempt.now.row.now →
        HasAlive s gone attempt.now.words.now →
        Keeps (lanes_in s) (y * band_in s) (band_in s)
        (λ p. all_below (is_beaten (numbered s) gone p attempt.now.action) (length s.seats)) left.old left.new }
{
    if let Some(from) = only_row(joint, attempt) {
        clear_seats(joint, attempt, &attempt.words[from..], left);
        return;
    }
    let mut alive = [0; BAND];
    alive_each(joint, attempt, &mut alive);
    clear_seats(joint, attempt, &alive, left);
}

/// Returns the number of pairs of a band at which the seat `k` serves the action. `alive` holds the
/// alive lanes of each row's attempt.
pub(crate) fn served_by(joint: &Joint, attempt: &Attempt<'_>, alive: &[u64], k: u8) -> u32
    requires attempt { IsBandAttempt (system_of joint.now) attempt.now }
    requires seat { k < length joint.now.seats }
    requires alive { band_in (system_of joint.now) ≤ length alive.now }
    ensures counted { let s = system_of joint.now in
        (y : ℕ) (gone : ℕ → Bool) → IsRow s (y * band_in s) attempt.now.row.now →
        HasAlive s gone attempt.now.words.now →
        AllAlive s gone attempt.now.to alive.now → result
        ≡ sum_by (λ i. count_by (λ lane. not (is_beaten (numbered s) gone
        ((y * band_in s + i) * lanes_in s + lane) attempt.now.action k)) (below (lanes_in s))) (below (band_in s)) }
    ensures few { result ≤ 4096 }
{
    let rows = joint.layout();
    let many = rows.band as usize;
    let mut room = [0; BAND];
    let left = &mut room[..many];
    set_first(left, many, rows.full);
    clear_seat(joint, attempt, alive, k, left);
    let mut count = 0;
    for i in 0..many {
        count += less(rows.full, left[i]).count_ones();
    }
    count
}
