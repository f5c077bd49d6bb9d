//! The words of the rows of a band.
ghost use Rattle.std.specs.Prelude.{◌≡◌, ℕ, ◌+◌, ◌<◌, ◌≤◌, true, length, slice_index};

/// The greatest number of rows in a band.
pub const BAND: usize = 64;

/// Copies the words of the rows from the row `x` on to `to`, as many as `to` has places. Copies a single
/// word directly.
pub fn copy_rows(words: &[u64], x: u32, to: &mut [u64])
    requires { x + length to.old ≤ length words.now }
    ensures long { length to.new ≡ length to.old }
    ensures each { (i : ℕ) → i < length to.old → slice_index to.new i ≡ slice_index words.now (x + i) }
{
    let from = x as usize;
    if to.len() == 1 {
        to[0] = words[from];
        return;
    }
    for i in 0..to.len() {
        to[i] = words[from + i];
    }
}

/// Returns whether all words are 0. Tests the first word on its own, because it is mostly nonzero
/// if any word is. Then joins all words.
#[tactic(auto, using(std::proofs::lemmas::Bool::cases_eq, std::proofs::lemmas::Nat::le_or_l, std::proofs::lemmas::Nat::le_or_r))]
pub fn are_clear(words: &[u64]) -> bool
    ensures { result ≡ true → (i : ℕ) → i < length words.now → slice_index words.now i ≡ 0 }
{
    if !words.is_empty() && words[0] != 0 {
        return false;
    }
    let mut all = 0;
    for i in 0..words.len() {
        all |= words[i];
    }
    all == 0
}
