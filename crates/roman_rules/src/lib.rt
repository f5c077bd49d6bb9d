//! The interface between a system and the algorithms over its numbered pairs.
//!
//! The interface is [`Rules`]. Pairs are numbers. A system gives the allowed actions of a pair, the
//! ready seats, and the pairs to which a delegation can lead. Pairs lie in rows of up to 64
//! neighbours, one word to a row, and one call answers for all pairs of a row. The seats that can
//! serve an action at a pair are a [`SeatSet`]. Contracts see a system as an arena over numbers
//! (`specs/Numbered`), so algorithms and their proofs don't depend on environments, guards or the
//! numbering.
#![tactic(auto)]

mod finding;
mod probe;
mod rules;
mod seat_set;
mod words;

pub use finding::Finding;
pub use probe::{RowProbe, tick_ready};
pub use rules::Rules;
pub use seat_set::{SeatSet, with_bit};
pub use words::{BAND, are_clear, copy_rows};
