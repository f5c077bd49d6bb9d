//! Searching for a word that isn't 0.
ghost use Rattle.std.specs.Prelude.{◌≢◌, ◌<◌, ◌≤◌, length, slice_index, IfSome, IfNone};
ghost use Rattle.roman_lanes.specs.Words.{AreClearFrom};

use crate::block::{WORDS, is_clear};

/// Returns the place of the first word that isn't 0, from the place `from` on. Requires `from` at
/// most the length of the slice. Returns `None` exactly when all words from there on are 0. Skips
/// 32 words at a time while they are all 0.
pub fn first_set(words: &[u64], from: usize) -> Option<usize>
    requires from { from ≤ length words.now }
    ensures none { IfNone result (AreClearFrom words.now from (length words.now)) }
    ensures some { IfSome result (λ i. (from ≤ i) × (i < length words.now) × (slice_index words.now i ≢ 0)) }
    ensures first { IfSome result (AreClearFrom words.now from) }
{
    for i in past_clear(words, from)..words.len() {
        if words[i] != 0 {
            return Some(i);
        }
    }
    None
}

/// Skips whole blocks of zeros, from `from` on, and returns the place after them.
fn past_clear(words: &[u64], from: usize) -> usize
    requires { from ≤ length words.now }
    ensures place { from ≤ result × (result ≤ length words.now) }
    ensures clear { AreClearFrom words.now from result }
{
    let mut at = from;
    while words.len() - at >= WORDS && is_clear(words, at) {
        at += WORDS;
    }
    at
}
