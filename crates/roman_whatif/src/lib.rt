//! Computes what remains of a composition when services fail.
//!
//! [`now`] returns the outlook of a pair in the present system: whether the pair is related, how
//! many pairs are related, and how many services the masks of all pairs and actions have.
//! [`without`] returns the outlook after one or two services freeze or die. It tries the failure on
//! a scratch, which is a copy of the relation, and leaves the relation unchanged. [`Losses`] tries
//! the failures of each service and of each two services, and keeps the outlooks in two tables. If
//! neighbouring services are alike, it tries the failure of one of them and copies the outlook.
//! `specs/Left` defines the system and the pair that remain after a failure.
#![tactic(auto)]

mod alike;
mod failing;
mod losses;
mod outlook;

pub use failing::without;
pub use losses::Losses;
pub use outlook::{Outlook, now};
pub use roman_model::Way;
