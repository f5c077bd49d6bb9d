//! The removal list of a system's pairs. An [`Order`] also keeps the pairs that aren't listed, as
//! one word for each row, marks, and, after [`Order::stamp_all`], each pair's place in the list.
//!
//! Pairs lie in rows of up to 64 neighbours: pair p is lane `p % lanes` of row `p / lanes`.
//! [`Order::build`] and a copy reserve all tables at once; no other call allocates memory. A table
//! is at most as long as the present shape needs. Exceptions are the levels, and the waiting
//! entries, which belong to an earlier shape. The list can be reopened: its entries then wait, and
//! are taken one after another while a new list begins. `specs/Board` defines what contracts see of
//! an order, and `specs/Sound` how its tables represent that.
#![tactic(auto)]

mod ahead;
mod batch;
mod flags;
mod order;

pub use ahead::Ahead;
pub use batch::Batch;
pub use order::Order;
pub use roman_model::Reason;
