//! Finds the pairs missing from a list: those that aren't listed, and at which a reason holds.
ghost use Rattle.std.specs.Prelude.{◌≡◌, ℕ, ◌+◌, ◌*◌, ◌<◌, ◌≤◌, false, not, List, length};
ghost use Rattle.std.specs.List.{find};
ghost use Rattle.roman_model.specs.Arena.{Entry, is_listed};
ghost use Rattle.roman_model.specs.Certificate.{could_be_listed};
ghost use Rattle.roman_lanes.specs.Rows.{HasLanes, AreRows};
ghost use Rattle.roman_check.specs.Remain.{HaveBits, NoneMissing};

use roman_rules::{BAND, Rules, are_clear, copy_rows};

/// Returns the missing pairs of the row `x`. `words` has the bits of the pairs that aren't listed.
fn missing_in<J: Rules>(joint: &J, words: &[u64], x: u32) -> u64
    requires row { x < length words.now }
    requires room { HaveBits J.Rules joint.now words.now }
    ensures { let A = J.arena joint.now in
        (L : List (Entry ℕ)) → AreRows (J.lanes joint.now) (λ p. not (is_listed A L p)) words.now →
        HasLanes (J.lanes joint.now) x (could_be_listed A L) result }
{
    joint.known(); // a row has 1 to 64 lanes
    let left = words[x as usize];
    let row = joint.row(x);
    let mut missing = left & joint.unfine(&row);
    for a in 0..joint.actions() {
        missing |= joint.unserved(&row, words, a, left);
    }
    missing
}

/// Returns false only if no pair of the band `y` is missing. `words` has the bits of the pairs that
/// aren't listed. `left` is working space for the rows of one band.
fn misses_some<J: Rules>(joint: &J, words: &[u64], y: u32, resting: u64, left: &mut [u64]) -> bool
    requires resting { J.is_resting joint.now resting }
    requires band { y * J.band joint.now + J.band joint.now ≤ length words.now }
    requires room { HaveBits J.Rules joint.now words.now }
    requires left { length left.old ≡ J.band joint.now }
    ensures long { length left.new ≡ length left.old }
    ensures none { let A = J.arena joint.now in let lanes = J.lanes joint.now in
        result ≡ false → (L : List (Entry ℕ)) → AreRows lanes (λ p. not (is_listed A L p)) words.now →
        (i : ℕ) → i < J.band joint.now → HasLanes lanes (y * J.band joint.now + i) (could_be_listed A L) 0 }
{
    joint.known(); // a row has 1 to 64 lanes, a band has 1 to 64 rows
    let x = y * joint.band();
    copy_rows(words, x, left);
    if are_clear(left) {
        return false;
    }
    let row = joint.first_row(y);
    joint.unfine_band(&row, resting, left);
    if !are_clear(left) {
        return true;
    }
    for a in 0..joint.actions() {
        copy_rows(words, x, left);
        joint.unserved_band(&row, words, a, left);
        if !are_clear(left) {
            return true;
        }
    }
    false
}

/// Returns a number of rows, from the first row on, that miss no pair. `words` has the bits of the
/// pairs that aren't listed. Searches band by band, and stops at the first band that may miss a pair.
#[tactic(auto, using(std::proofs::lemmas::Nat::row_fits, roman_model::proofs::CallerLemmas::mul_cancel))]
fn rows_complete<J: Rules>(joint: &J, words: &[u64]) -> u32
    requires { HaveBits J.Rules joint.now words.now }
    ensures { NoneMissing (J.arena joint.now) (J.lanes joint.now) words.now (result * J.lanes joint.now) }
{
    joint.known(); // a row has 1 to 64 lanes
    let band = joint.band();
    let mut room = [0; BAND];
    let left = &mut room[..band as usize];
    let resting = joint.resting();
    for y in 0..joint.bands() {
        if misses_some(joint, words, y, resting, left) {
            return y * band;
        }
    }
    joint.rows()
}

/// Returns the least missing pair: it isn't listed, and a reason holds at it. `words` has the bits
/// of the pairs that aren't listed. Returns `None` if no pair is missing.
pub(crate) fn first_missing<J: Rules>(joint: &J, words: &[u64]) -> Option<u32>
    requires { HaveBits J.Rules joint.now words.now }
    ensures { let A = J.arena joint.now in
        (L : List (Entry ℕ)) → AreRows (J.lanes joint.now) (λ p. not (is_listed A L p)) words.now →
        result ≡ find (could_be_listed A L) A.nodes }
{
    joint.known(); // a pair's number fits in 32 bits, a row has 1 to 64 lanes
    let lanes = joint.lanes();
    for x in rows_complete(joint, words)..joint.rows() {
        let missing = missing_in(joint, words, x);
        if missing != 0 {
            return Some((x * lanes).wrapping_add(missing.trailing_zeros()));
        }
    }
    None
}
