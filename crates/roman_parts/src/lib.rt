//! Environments, behaviours and targets of the Roman model, with look-ups of their steps.
//!
//! [`read_environment`], [`read_behaviour`] and [`read_target`] read parts from the JSON values of a
//! document. `from_lists` of each type makes a part from lists. `specs/` defines the meaning of a
//! value, and the normal form of a part.
#![tactic(auto)]

mod automaton;
mod behaviour;
mod cells;
mod choice;
mod environment;
mod error;
mod finals;
mod guards;
mod masks;
mod names;
mod parts;
mod reading;
mod state_lists;
mod steps;
mod target;

pub use behaviour::Behaviour;
pub use environment::Environment;
pub use error::{List, PartError};
pub use names::place_in;
pub use parts::{read_behaviour, read_environment, read_name, read_target};
pub use reading::{counted_member, looked, refused};
pub use roman_read::{Kind, Name, NameTable};
pub use steps::{Move, Triple};
pub use target::Target;
