//! The depths of the pairs of a system: within how many requests the opponent wins.
//!
//! [`Ranks`] has the depth of each pair: the least number of requests within which the opponent wins
//! from it, whichever services serve. A related pair has no depth. [`write_depths`] writes the number
//! of pairs of each depth, and the depth of the start pair. `specs/Depths` defines depths and
//! `specs/DepthText` the text, both by the definitions of the model alone.
#![tactic(auto)]

mod counting;
mod levels;
mod ranks;
mod text;

pub use ranks::Ranks;
pub use text::write_depths;
