//! Repairs the greatest relation when a service freezes, thaws, joins or dies.
//!
//! Each call changes the system of a relation by one service and repairs the removal list in place.
//! It renames the list to the pairs of the new system, keeps the entries that are still justified,
//! in their order, and then completes the list. To find which entries are justified, it probes rows
//! and bands of rows, not pairs. So one probe serves the entries of neighbouring pairs. After a
//! thaw or a join only the changed service is probed, until an entry is dropped. A freeze and a
//! death keep their entries without probing. No call allocates memory. Each call requires a
//! complete removal list, as [`Relation::build`](roman_relation::Relation::build) leaves it, and
//! leaves a complete one. `specs/Repairs` defines a repaired relation.
#![tactic(auto)]

mod band_probe;
mod batches;
mod dying;
mod freezing;
mod joining;
mod lanes;
mod replaying;
mod settling;
mod tally;
mod thawing;

pub use dying::die;
pub use freezing::freeze;
pub use joining::join;
pub use roman_joint::SeatError as JoinError;
pub use tally::Tally;
pub use thawing::thaw;
