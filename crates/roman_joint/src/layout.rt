//! How the numbers of pairs split into rows and lanes.
ghost use Rattle.std.specs.Prelude.{◌≡◌, ◌≢◌, ℕ, ◌/◌, ◌<◌, ◌≤◌, ltb, if◌then◌else◌, true};
ghost use Rattle.roman_lanes.specs.Rows.{is_on};
ghost use Rattle.roman_joint.specs.Rows.{lane_has_state, IsLayoutOf};

use roman_model::PLACES;
use roman_radix::Shape;

/// How the numbers of pairs split into rows and lanes: the states of the last services give a pair's
/// lane, and the other states give its row.
#[derive(Clone, Copy, Debug)]
pub(crate) struct Layout {
    /// The first service within the lanes.
    pub(crate) low: u8,
    /// The first of a band's own services.
    pub(crate) mid: u8,
    /// The number of rows in a band.
    pub(crate) band: u32,
    /// The number of lanes in a row.
    pub(crate) lanes: u32,
    /// The word with all lanes set.
    pub(crate) full: u64,
    /// The number of rows.
    pub(crate) rows: u32,
    /// The number of rows for each state of the target and of the environment.
    pub(crate) env_rows: u32,
    /// The number of rows for each state of the target.
    pub(crate) target_rows: u32,
    /// The stride of each service: the difference between neighbouring states, in rows for a
    /// service before the lanes, and in lanes for one within them.
    pub(crate) strides: [u32; PLACES],
    /// The number of states of each service.
    pub(crate) sizes: [u8; PLACES],
    /// The lanes in which a service within the lanes is in its first state.
    pub(crate) firsts: [u64; PLACES],
}

/// Returns how the numbers of a shape's pairs split.
#[tactic(auto, using(crate::proofs::LeadLemmas::stride_positive, crate::proofs::SplitLemmas::size_positive))]
pub(crate) fn layout_of(shape: &Shape) -> Layout
    ensures { IsLayoutOf shape.now result }
{
    shape.known(); // no size is 0
    let low = shape.low();
    let (mid, band) = shape.band();
    let lanes = shape.lanes();
    let mut strides = [0; PLACES];
    let mut sizes = [0; PLACES];
    let mut firsts = [0; PLACES];
    for k in 0..shape.components() {
        let stride = shape.stride(k);
        let size = shape.size(k);
        strides[k as usize] = scaled(stride, lanes, k < low);
        sizes[k as usize] = size;
        firsts[k as usize] = first_lanes(stride, size);
    }
    Layout {
        low,
        mid,
        band,
        lanes,
        full: all_lanes(lanes),
        rows: shape.rows(),
        env_rows: shape.env_stride() / lanes,
        target_rows: shape.target_stride() / lanes,
        strides,
        sizes,
        firsts,
    }
}

/// Returns a stride, converted from lanes to rows if `in_rows` is true.
fn scaled(stride: u32, lanes: u32, in_rows: bool) -> u32
    requires { 0 < lanes }
    ensures { result ≡ (if in_rows then stride / lanes else stride) }
{
    if in_rows { stride / lanes } else { stride }
}

/// Returns the word with the first `lanes` lanes set.
#[tactic(auto, using(crate::proofs::WordLemmas::first_lanes))]
fn all_lanes(lanes: u32) -> u64
    requires { (0 < lanes) × (lanes ≤ 64) }
    ensures { (lane : ℕ) → is_on result lane ≡ ltb lane lanes }
{
    u64::MAX >> (64 - lanes)
}

/// Returns the lanes in which a service of the given stride and size is in its first state.
#[tactic(auto, using(crate::proofs::GoodLemmas::lane_steps))]
fn first_lanes(stride: u32, size: u8) -> u64
    requires stride { 0 < stride }
    requires size { 0 < size }
    ensures { (lane : ℕ) → lane < 64 → is_on result lane ≡ lane_has_state stride size 0 lane }
{
    let mut lanes = 0;
    for lane in 0..64 {
        let is_first = lane / stride % u32::from(size) == 0;
        lanes = with_lane(lanes, lane, is_first);
    }
    lanes
}

/// Returns the word with the given lane set if `is_in` is true.
#[tactic(auto, using(crate::proofs::WordLemmas::on_set_same, crate::proofs::WordLemmas::on_set_other))]
fn with_lane(word: u64, lane: u32, is_in: bool) -> u64
    requires { lane < 64 }
    ensures own { is_on result lane ≡ (if is_in then true else is_on word lane) }
    ensures others { (j : ℕ) → j ≢ lane → is_on result j ≡ is_on word j }
{
    if is_in { word | 1 << lane } else { word }
}
