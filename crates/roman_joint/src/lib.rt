//! Joints: an environment, a catalogue of behaviours, a target and the services, as one system with
//! numbered pairs.
//!
//! At a pair, a joint computes which actions the target allows, whether clause 2 holds, and to
//! which pairs a delegated action can lead. It also walks backwards over the delegations that can
//! lead to a pair. For a row of up to 64 neighbouring pairs it computes the same at once, as words.
//! Contracts see a joint as a system with its names (`specs/NamedSys`), and its results as those of
//! the arena over the numbers of that system's pairs.
#![tactic(auto)]

mod attempt;
mod band;
mod error;
mod fine;
mod good;
mod joint;
mod layout;
mod marks;
mod moves;
mod moving;
mod numbered;
mod outcomes;
mod row;
mod seat;
mod seats;
mod shifts;
mod states;
mod stripes;
mod tables;
mod target_view;
mod walk;
mod words;

pub use error::{JointError, SeatError};
pub use joint::Joint;
pub use outcomes::Outcomes;
pub use row::Row;
pub use seat::Seat;
pub use walk::Walk;
