//! The shifts by which a service within the lanes moves, on one action in one state of the environment.
ghost use Rattle.std.specs.Prelude.{◌≡◌, ℕ, ◌+◌, ◌<◌, ◌≤◌, ◌==◌, ◌&&◌, ◌||◌, All, length, slice_index};
ghost use Rattle.std.specs.List.{list_any};
ghost use Rattle.roman_lanes.specs.Rows.{is_on};
ghost use Rattle.roman_joint.specs.Moves.{SuitsShifts, AreShifts};

use crate::layout::Layout;
use crate::states::state_lanes;
use crate::words::with_lanes;
use roman_parts::Behaviour;
use roman_radix::Shape;

/// The number of places for shifts. There are at most 127 shifts from one of 64 states to another.
const SHIFTS: usize = 128;

/// The lanes that move by each shift. Shift j goes up by `j + 1 - n` states, where n is the number of
/// states.
#[derive(Drop)]
pub(crate) struct Shifts {
    /// The lanes from which the behaviour has a step.
    pub(crate) some: u64,
    pub(crate) lanes: [u64; SHIFTS],
}

/// Adds the lanes `here` to each shift that leads to one of the states. The shift to state b is `b + up`.
fn add_shifts(lanes: &mut [u64], here: u64, up: u8, states: &[u8])
    requires { All (λ b. b + up < length lanes.old) states.now }
    ensures long { length lanes.new ≡ length lanes.old }
    ensures shifts { (j lane : ℕ) → is_on (slice_index lanes.new j) lane
        ≡ (is_on (slice_index lanes.old j) lane || (is_on here lane && list_any (λ b. b + up == j) states.now)) }
{
    for b in states {
        lanes[*b as usize + up as usize] |= here;
    }
}

/// Returns the shifts by which the service `k` moves. The service is within the lanes and has the given
/// behaviour.
pub(crate) fn shifts_of(
    shape: &Shape,
    rows: &Layout,
    behaviour: &Behaviour,
    k: u8,
    e: u8,
    a: u8,
) -> Shifts
    requires { SuitsShifts shape.now rows.now k behaviour.now e a }
    ensures { AreShifts shape.now k behaviour.now.beh e a result }
{
    let size = rows.sizes[k as usize];
    let mut some = 0;
    let mut lanes = [0; SHIFTS];
    for d in 0..size {
        let here = state_lanes(shape, rows, k, d);
        let states = behaviour.out(d, e, a);
        some = with_lanes(some, here, !states.is_empty());
        add_shifts(&mut lanes, here, size - 1 - d, states);
    }
    Shifts { some, lanes }
}
