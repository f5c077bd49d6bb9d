//! The states of services: present, next and predecessor states, and the states in which they may rest.
ghost use Rattle.std.specs.Prelude.{◌≡◌, ℕ, ◌/◌, ◌%◌, ◌<◌, ◌≤◌, length, slice_index, All};
ghost use Rattle.roman_model.specs.SystemArena.{seat_next};
ghost use Rattle.roman_model.specs.Numbers.{sizes_of};
ghost use Rattle.roman_radix.specs.Rows.{low_of, row_sizes};
ghost use Rattle.roman_joint.specs.NamedSys.{system_of};
ghost use Rattle.roman_joint.specs.Backward.{seat_prev};
ghost use Rattle.roman_joint.specs.Behaviours.{IsServiceAt};
ghost use Rattle.roman_joint.specs.Rows.{low_in, lane_state_of, AreInState, IsLayoutOf, may_rest as may_rest_in};
ghost use Rattle.roman_joint.specs.Pairs.{joint_seat, seat_states, joint_actions};

use crate::joint::Joint;
use crate::layout::Layout;
use crate::seat::Seat;
use roman_model::PLACES;
use roman_parts::Behaviour;
use roman_radix::Shape;

/// Returns the state of a service before the lanes at the pairs of row `x`. For one of a band's own
/// services, `x` may be counted from the band's first row.
#[inline(always)]
#[tactic(auto, using(crate::proofs::GoodLemmas::seats_few))]
pub(crate) fn row_state(joint: &Joint, k: u8, x: u32) -> u8
    requires { k < low_in (system_of joint.now) }
    ensures { result ≡ lane_state_of (row_sizes (sizes_of (system_of joint.now))) k x }
{
    let rows = joint.layout();
    let state = x / rows.strides[k as usize] % u32::from(rows.sizes[k as usize]);
    state as u8
}

/// Returns the states of the services before the lanes at the pairs of row `x`, in the first places of
/// a table.
#[tactic(auto, using(crate::proofs::GoodLemmas::table_steps))]
pub(crate) fn row_states(joint: &Joint, x: u32) -> [u8; PLACES]
    ensures { (k : ℕ) → k < low_in (system_of joint.now) → slice_index result k
        ≡ lane_state_of (row_sizes (sizes_of (system_of joint.now))) k x }
{
    let rows = joint.layout();
    let mut states = [0; PLACES];
    for k in 0..rows.low {
        states[k as usize] = row_state(joint, k, x);
    }
    states
}

/// Returns a service and its behaviour.
#[inline(always)]
#[tactic(auto, using(crate::proofs::BehaviourLemmas::service_read))]
pub(crate) fn service(joint: &Joint, k: u8) -> (&Seat, &Behaviour)
    requires { k < length joint.now.seats }
    ensures { IsServiceAt joint.now k result.0.now result.1.now }
{
    joint.known(); // each seat's behaviour is in the catalogue
    let seat = joint.seat(k);
    (seat, &joint.catalogue()[seat.behaviour as usize])
}

/// Returns the states to which a service goes from state `b`. Returns no state if it is frozen.
#[inline(always)]
pub(crate) fn next_states<'a>(joint: &'a Joint, k: u8, b: u8, e: u8, a: u8) -> &'a [u8]
    requires seat { k < length joint.now.seats }
    requires state { b < seat_states joint.now k }
    requires env { e < (system_of joint.now).env.states }
    requires action { a < joint_actions joint.now }
    ensures next { result.now ≡ seat_next (joint_seat joint.now k) b e a }
    ensures below { All (λ c. c < seat_states joint.now k) result.now }
{
    let (seat, behaviour) = service(joint, k);
    if seat.frozen {
        return &[];
    }
    behaviour.out(b, e, a)
}

/// Returns the states from which a service goes to state `b`. Returns no state if it is frozen.
pub(crate) fn prev_states<'a>(joint: &'a Joint, k: u8, b: u8, e: u8, a: u8) -> &'a [u8]
    requires seat { k < length joint.now.seats }
    requires state { b < seat_states joint.now k }
    requires env { e < (system_of joint.now).env.states }
    requires action { a < joint_actions joint.now }
    ensures prev { result.now ≡ seat_prev (joint_seat joint.now k) b e a }
    ensures below { All (λ c. c < seat_states joint.now k) result.now }
{
    let (seat, behaviour) = service(joint, k);
    if seat.frozen {
        return &[];
    }
    behaviour.into(b, e, a)
}

/// Returns whether a service may rest in a state: the state is final, or the service is loose.
#[tactic(auto, using(crate::proofs::BehaviourLemmas::seat_read))]
pub(crate) fn may_rest(joint: &Joint, k: u8, b: u8) -> bool
    requires seat { k < length joint.now.seats }
    requires state { b < seat_states joint.now k }
    ensures { result ≡ may_rest_in (joint_seat joint.now k) b }
{
    let (seat, behaviour) = service(joint, k);
    if !seat.rests {
        return true;
    }
    behaviour.is_final(b)
}

/// Returns the lanes in which a service within the lanes is in state `b`.
#[tactic(auto, using(crate::proofs::GoodLemmas::begins, crate::proofs::GoodLemmas::off_rows))]
pub(crate) fn state_lanes(shape: &Shape, rows: &Layout, k: u8, b: u8) -> u64
    requires rows { IsLayoutOf shape.now rows.now }
    requires within { low_of shape.now.seats ≤ k }
    requires seat { k < length shape.now.seats }
    requires state { b < slice_index shape.now.seats k }
    ensures { AreInState shape.now k b result }
{
    let from = u32::from(b) * rows.strides[k as usize];
    (rows.firsts[k as usize] << from) & rows.full
}
