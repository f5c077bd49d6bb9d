//! The start of a library: the joint of its system, and the number of its start pair.
//!
//! Sessions, certificates, checks and all computations on a document begin here. `specs/Starts`
//! defines the system of a library and the states in which it starts, and `specs/Seating` the
//! result of seating a library.
//!
//! [`extent_of`] returns the sizes of a document's system, whether or not the system is within its
//! limit. [`product`] multiplies them to the number of cells (`specs/Extents`, `specs/Digits`).
#![tactic(auto)]

mod extent;
mod products;
mod seating;

pub use extent::{Extent, extent_of};
pub use products::{is_within, product};
pub use seating::{Seated, seat_library};
