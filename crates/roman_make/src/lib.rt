//! Large systems made from a number, and the lines of a session for them.
//!
//! [`make`] makes a system of up to ten workers, who wear out and are mended, with a target that
//! requests the shift of one worker. `specs/Made` defines the systems. [`script`] returns the lines
//! of a session in which a worker freezes, thaws and dies, and a spare worker works a whole shift in
//! its place.
#![tactic(auto)]

mod error;
mod lines;
mod names;
mod parts;
mod system;
mod tables;

pub use error::MakeError;
pub use lines::script;
pub use system::make;
