//! Several targets as one.
//!
//! [`combine`] turns an environment, a catalogue and several named targets into one environment, one
//! catalogue and one target. Each combined action names the target that requests it. Requests of the
//! targets are interleaved: one target requests at a time, and each target moves on its own.
//! `specs/Combining` defines the parts, their names, and the rules that may forbid them. A law of the
//! model states that the combined system has the simulations of all targets together.
#![tactic(auto)]

mod asking;
mod behaviours;
mod combining;
mod environment;
mod error;
mod merge;
mod parts;
mod sizes;
mod tables;
mod target;
mod words;

pub use combining::combine;
pub use error::CombineError;
pub use parts::{Combined, Named};
