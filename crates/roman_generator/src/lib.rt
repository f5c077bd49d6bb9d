//! The orchestrator generator: the services that can be offered for a request ([`offers`]), and the
//! pair or the target's state after one of them has served it ([`next_pair`], [`next_target`]).
#![tactic(auto)]

mod moves;
mod observation;
mod offering;

pub use moves::{next_pair, next_target};
pub use observation::Observation;
pub use offering::offers;
