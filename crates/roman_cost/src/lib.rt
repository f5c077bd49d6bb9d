//! Computes the costs of delegations, and the cheapest delegations.
//!
//! [`read_costs`] reads the costs of behaviours for actions from a text on a shelf. [`Advice`] has,
//! for each related pair and each number of requests, the least worst-case cost. This is the least
//! amount that suffices for the requests, for any requests of the target and any outcomes. It also
//! gives the cheapest service for the next request. [`put_advice`] writes all these values as a
//! text, with the service to take for each request that can come first. `specs/Costs` defines the
//! meaning of a text of costs, `specs/AdviceText` the text of advice, and `specs/Laws` what it
//! states about plans.
#![tactic(auto)]

mod advice;
mod costs;
mod error;
mod filling;
mod limits;
mod looks;
mod outcomes;
mod reading;
mod seats;
mod terms;
mod writing;

pub use advice::Advice;
pub use costs::{Costs, Listed};
pub use error::{AdviceError, CostError};
pub use limits::{MAX_COST, MAX_COSTS, MAX_REQUESTS, MAX_VALUES};
pub use reading::read_costs;
pub use writing::{advice_is_least, put_advice};
