//! Guards: sets of environment states, as formulas and as words.
//!
//! A [`Guard`] is a formula over the numbers of environment states. [`compile`] turns it into a
//! [`StateSet`], a word with one bit for each state. `specs/Meaning` defines the states in which a
//! guard holds.
#![tactic(auto)]

mod formula;
mod set;

pub use formula::Guard;
pub use set::{StateSet, compile};
