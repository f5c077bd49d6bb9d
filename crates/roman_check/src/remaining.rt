//! The remaining pairs, row by row: those that no entry names yet.
ghost use Rattle.std.specs.Prelude.{◌≡◌, ◌≢◌, ℕ, ◌+◌, ◌*◌, ◌<◌, ◌≤◌, ◌==◌, Bool, false, not, ◌&&◌, ◌||◌, length, IfOk, IfSome, IsTrue};
ghost use Rattle.roman_lanes.specs.Rows.{is_on};
ghost use Rattle.roman_check.specs.Remain.{Clears, Remain, Removes};

use crate::table::Remaining;
use std::alloc::{AllocError, Global};

/// Returns whether the bit of a lane is set.
#[tactic(auto, using(std::proofs::lemmas::Nat::Bits::shr_and_one), unfolding(roman_lanes::specs::Rows::is_on))]
pub(crate) fn has_lane(word: u64, lane: u32) -> bool
    requires { lane < 64 }
    ensures { result ≡ is_on word lane }
{
    (word >> lane) & 1 == 1
}

/// Returns the word with the bit of a lane cleared.
#[tactic(auto, using(roman_lanes::proofs::CallerLemmas::on_clear_same, roman_lanes::proofs::CallerLemmas::on_clear_other, crate::proofs::RemainLemmas::without_within))]
fn without_lane(word: u64, lane: u32) -> u64
    requires { lane < 64 }
    ensures { Clears word result lane }
{
    word & !(1 << lane)
}

/// Returns the lane of the pair `p` in the row of `lanes` pairs that begins with the pair `first`,
/// or `None` if `p` doesn't lie in it.
#[inline(always)]
pub(crate) fn lane_from(first: u64, lanes: u32, p: u64) -> Option<u32>
    requires { first < 9223372036854775808 }
    ensures { IfSome result (λ lane. (first + lane ≡ p) × (lane < lanes)) }
{
    let lane = p.wrapping_sub(first);
    if lane >= u64::from(lanes) {
        return None;
    }
    Some(lane as u32)
}

impl Remaining {
    /// Returns the table in which all pairs remain. Fails only when out of memory.
    pub(crate) fn build(
        alloc: Global,
        rows: u32,
        lanes: u32,
        pairs: u32,
    ) -> Result<Remaining, AllocError>
        requires lanes { (0 < lanes) × (lanes ≤ 64) }
        requires pairs { rows * lanes ≡ pairs }
        ensures shaped { IfOk result (λ left. (left.lanes ≡ lanes) × (length left.words.items ≡ rows)) }
        ensures all { IfOk result (Remain pairs (λ _. false)) }
    {
        let full = u64::MAX >> (64 - lanes);
        Ok(Remaining {
            lanes,
            words: vec![in alloc; full; rows as usize]?,
            count: pairs,
        })
    }

    /// Returns the lane of the pair `p`, or `None` if `p` doesn't lie in the row.
    fn lane_in(&self, row: u32, p: u32) -> Option<u32>
        ensures { IfSome result (λ lane. (row * self.now.lanes + lane ≡ p) × (lane < self.now.lanes)) }
    {
        let first = u64::from(row) * u64::from(self.lanes);
        lane_from(first, self.lanes, u64::from(p))
    }

    /// Returns the row and the lane of the pair `p`. Tries the row `near` first.
    pub(crate) fn place(&self, near: u32, p: u32) -> (u32, u32)
        ensures pair { result.0 * self.now.lanes + result.1 ≡ p }
        ensures lane { result.1 < self.now.lanes }
    {
        if let Some(lane) = self.lane_in(near, p) {
            return (near, lane);
        }
        (p / self.lanes, p % self.lanes)
    }

    /// Returns whether the pair at this row and lane remains.
    pub(crate) fn has(&self, row: u32, lane: u32) -> bool
        requires row { row < length self.now.words.items }
        requires lane { lane < self.now.lanes }
        ensures { (pairs p : ℕ) (gone : ℕ → Bool) → row * self.now.lanes + lane ≡ p → Remain pairs gone self.now →
            result ≡ not (gone p) }
    {
        has_lane(self.words[row as usize], lane)
    }

    /// Returns whether the pair at this row and lane remains, and its lane is among `known`.
    #[inline(always)]
    #[tactic(auto, using(roman_lanes::proofs::CallerLemmas::on_and, std::proofs::lemmas::Bool::and_parts))]
    pub(crate) fn has_known(&self, row: u32, lane: u32, known: u64) -> bool
        requires row { row < length self.now.words.items }
        requires lane { lane < self.now.lanes }
        ensures { (pairs p : ℕ) (gone : ℕ → Bool) → row * self.now.lanes + lane ≡ p → Remain pairs gone self.now →
            IsTrue result → IsTrue (is_on known lane) × IsTrue (not (gone p)) }
    {
        has_lane(known & self.words[row as usize], lane)
    }

    /// Removes the pair at this row and lane. The table stays right only if the pair remained
    /// before.
    pub(crate) fn remove(&mut self, row: u32, lane: u32)
        requires row { row < length self.old.words.items }
        requires lane { lane < self.old.lanes }
        ensures { Removes self.old self.new (row * self.old.lanes + lane) }
    {
        let word = self.words[row as usize];
        self.words[row as usize] = without_lane(word, lane);
        self.count = self.count.wrapping_sub(1);
    }

    /// Returns one word for each row, with the bits of the remaining pairs.
    pub(crate) fn words(&self) -> &[u64]
        ensures { result.now ≡ self.now.words.items }
    {
        &self.words
    }
}
