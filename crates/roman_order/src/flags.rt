//! Flags, 64 to a word.
ghost use Rattle.std.specs.Prelude.{◌≡◌, ◌≢◌, ℕ, ◌+◌, ◌-◌, ◌*◌, ◌/◌, ◌^◌, ◌<◌, ◌≤◌, ◌∷◌, true, false, nat_lt, length, slice_index, IfSome, IfNone};
ghost use Rattle.roman_lanes.specs.Rows.{is_on};
ghost use Rattle.roman_lanes.specs.Flags.{SameFlagsBut, has_flag};
ghost use Rattle.roman_order.specs.Board.{set_lanes};

use roman_lanes::first_set;

/// Returns the number of words for the given number of flags.
pub(crate) fn words_for(flags: u32) -> usize
    ensures { result ≡ (flags + 63) / 64 }
{
    (flags as usize + 63) / 64
}

/// Returns whether flag `p` is set.
#[tactic(auto, unfolding(roman_lanes::specs::Flags::has_flag, roman_lanes::specs::Rows::is_on))]
pub(crate) fn has(words: &[u64], p: u32) -> bool
    requires { p / 64 < length words.now }
    ensures { result ≡ has_flag words.now p }
{
    is_set(words[(p / 64) as usize], p % 64)
}

/// Returns whether a bit of a word is set.
#[inline(always)]
#[tactic(auto, using(std::proofs::lemmas::Nat::Bits::shr_and_one), unfolding(roman_lanes::specs::Rows::is_on))]
pub(crate) fn is_set(word: u64, bit: u32) -> bool
    requires { bit < 64 }
    ensures { result ≡ is_on word bit }
{
    (word >> bit) & 1 == 1
}

/// Sets flag `p`.
#[tactic(auto, using(crate::proofs::Words::set_rules))]
pub(crate) fn set(words: &mut [u64], p: u32)
    requires { p / 64 < length words.old }
    ensures set { has_flag words.new p ≡ true }
    ensures others { SameFlagsBut p words.old words.new }
{
    words[(p / 64) as usize] |= 1 << (p % 64);
}

/// Sets the flags below `end`. Requires that no flag is set.
#[tactic(auto, using(crate::proofs::Words::front_rules))]
pub(crate) fn set_front(words: &mut [u64], end: u32)
    requires clear { (i : ℕ) → slice_index words.old i ≡ 0 }
    requires end { end ≤ 64 * length words.old }
    ensures { (p : ℕ) → has_flag words.new p ≡ nat_lt p end }
{
    let whole = (end / 64) as usize;
    fill_front(words, whole);
    if end % 64 != 0 {
        words[whole] = u64::MAX >> (64 - end % 64);
    }
}

/// Sets all flags of the first `many` words.
#[inline(always)]
fn fill_front(words: &mut [u64], many: usize)
    requires { many ≤ length words.old }
    ensures full { (i : ℕ) → i < many → slice_index words.new i ≡ 2 ^ 64 - 1 }
    ensures others { (i : ℕ) → many ≤ i → slice_index words.new i ≡ slice_index words.old i }
    ensures long { length words.new ≡ length words.old }
{
    words[..many].fill(u64::MAX);
}

/// Searches the first `many` words for one that isn't 0, from place `from` on, and then from the
/// start. Returns its place, or `None` exactly if all of these words are 0.
pub(crate) fn next_word(words: &[u64], many: usize, from: usize) -> Option<usize>
    requires { many ≤ length words.now }
    ensures none { IfNone result ((i : ℕ) → i < many → slice_index words.now i ≡ 0) }
    ensures some { IfSome result (λ i. (i < many) × (slice_index words.now i ≢ 0)) }
{
    let front = &words[..many];
    let start = from.min(many);
    if let Some(i) = first_set(front, start) {
        return Some(i);
    }
    first_set(&front[..start], 0)
}

/// Returns the number of the lowest set bit of a word. Requires a word that isn't 0.
pub(crate) fn lowest(word: u64) -> u32
    requires { word ≢ 0 }
    ensures within { result < 64 }
    ensures on { is_on word result ≡ true }
    ensures first { (bit : ℕ) → bit < result → is_on word bit ≡ false }
{
    word.trailing_zeros()
}

/// Returns the lowest lane of a word, and the word without it. Requires a word that isn't 0.
#[inline(always)]
#[tactic(auto, using(crate::proofs::Lanes::lane_rules))]
pub(crate) fn first_lane(word: u64) -> (u32, u64)
    requires { word ≢ 0 }
    ensures on { is_on word result.0 ≡ true }
    ensures rest { set_lanes word ≡ result.0 ∷ set_lanes result.1 }
    ensures some { result.1 ≢ 0 → 0 < length (set_lanes result.1) }
    ensures fewer { (lane : ℕ) → is_on result.1 lane ≡ true → is_on word lane ≡ true }
{
    let lane = lowest(word);
    (lane, word & !(1 << lane))
}

/// Returns the number of set bits of a word.
#[tactic(auto, using(crate::proofs::Ones::ones_of))]
pub(crate) fn lanes_in(word: u64) -> u32
    ensures { result ≡ length (set_lanes word) }
{
    word.count_ones()
}

/// Clears the lowest set flag of word `i`, and returns its number among all flags. Requires a word
/// that isn't 0.
#[tactic(auto, using(crate::proofs::Words::clear_rules))]
pub(crate) fn take_first(words: &mut [u64], i: usize) -> u32
    requires place { i < length words.old }
    requires some { slice_index words.old i ≢ 0 }
    requires few { 64 * length words.old ≤ 2 ^ 32 }
    ensures was { has_flag words.old result ≡ true }
    ensures taken { has_flag words.new result ≡ false }
    ensures others { SameFlagsBut result words.old words.new }
{
    let word = words[i];
    let flag = lowest(word);
    words[i] = word & !(1 << flag);
    i as u32 * 64 + flag
}
