//! Splits and makes words of lanes.
ghost use Rattle.std.specs.Prelude.{◌≡◌, ℕ, ◌*◌, ◌<◌, ◌≤◌, true, false, length};
ghost use Rattle.roman_lanes.specs.Rows.{is_on};
ghost use Rattle.roman_order.specs.Board.{set_lanes};
ghost use Rattle.roman_repair.specs.Lanes.{HasFront, HasLanesBetween, IsCutAt, IsFirstGroup, IsSpread};

/// Splits the lanes of `word` into those below `end` and those from it on.
fn cut_at(word: u64, end: u32) -> (u64, u64)
    requires { (0 < end) × (end ≤ 64) }
    ensures { IsCutAt word result.0 result.1 end }
{
    let front = word & (u64::MAX >> (64 - end));
    (front, word & !front)
}

/// Splits off the first lanes of `word` that are alike: all of them are lanes of `held`, or none
/// is. Returns them, the other lanes, and whether `held` has them. Requires a lane.
#[tactic(auto, using(crate::proofs::Fronts::first_low, crate::proofs::Fronts::held_front, crate::proofs::Fronts::other_front))]
pub(crate) fn first_alike(word: u64, held: u64) -> (u64, u64, bool)
    requires { 0 < length (set_lanes word) }
    ensures { HasFront word held result.0 result.1 result.2 }
{
    if (held >> word.trailing_zeros()) & 1 == 1 {
        let (front, rest) = cut_at(word, (word & !held).trailing_zeros());
        return (front, rest, true);
    }
    let (front, rest) = cut_at(word, (word & held).trailing_zeros());
    (front, rest, false)
}

/// Splits off the first group of a word that has a lane. Each group has `width` lanes. Returns its
/// number, its lanes from its first one on, and the lanes of the later groups. Requires a lane.
pub(crate) fn first_group(word: u64, width: u32) -> (u32, u64, u64)
    requires some { 0 < length (set_lanes word) }
    requires width { (0 < width) × (width ≤ 64) }
    ensures { IsFirstGroup word width result.0 result.1 result.2 }
{
    let i = word.trailing_zeros() / width;
    let begin = i * width;
    let (front, rest) = cut_at(word, (begin + width).min(64));
    (i, front >> begin, rest)
}

/// Returns the word with the lanes from `begin` to `end - 1`. Requires `begin < end` and `end` at
/// most 64.
#[tactic(auto, using(crate::proofs::Fronts::is_between))]
fn lanes_between(begin: u32, end: u32) -> u64
    requires { (begin < end) × (end ≤ 64) }
    ensures { HasLanesBetween result begin end }
{
    (u64::MAX >> (64 - end)) & !((1 << begin) - 1)
}

/// Returns the first of the word's lanes from `from` on, or `end` if it has none before `end`.
/// Requires `from` at most `end`, and `end` at most 64.
fn next_lane(word: u64, from: u32, end: u32) -> u32
    requires { (from ≤ end) × (end ≤ 64) }
    ensures range { (from ≤ result) × (result ≤ end) }
    ensures off { (lane : ℕ) → from ≤ lane → lane < result → is_on word lane ≡ false }
    ensures on { result < end → is_on word result ≡ true }
{
    if from == end {
        return end;
    }
    (from + (word >> from).trailing_zeros()).min(end)
}

/// Returns the first `lanes` lanes of a word, each spread to as many neighbours as `width`. Takes
/// one iteration for each stretch of neighbouring lanes.
pub(crate) fn spread_lanes(word: u64, lanes: u32, width: u32) -> u64
    requires { (0 < width) × (lanes * width ≤ 64) }
    ensures { IsSpread word result lanes width }
{
    let mut spread = 0;
    let mut lane = next_lane(word, 0, lanes);
    'lane: while lane < lanes {
        let end = next_lane(!word, lane, lanes);
        spread |= lanes_between(lane * width, end * width);
        lane = next_lane(word, end, lanes);
    }
    spread
}
